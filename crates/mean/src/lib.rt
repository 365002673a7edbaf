// The mean of two samples, as stereo to mono takes it (elements/channels.rs; document 02, Q-6).
#![tactic(auto)]

ghost use Rattle.std.specs.Prelude.{◌≡◌, ◌%◌, eqb, nat_abs};
ghost use Rattle.mean.specs.Mean.{mean};

// An exact half was rounded up to `above`: does the even number lie below it?
fn goes_down(above: i16) -> bool
    ensures { result ≡ eqb (nat_abs above % 2) 1 }
{
    above & 1 != 0
}

// The mean of two samples, an exact half to the even number.
pub fn mean_i16(l: i16, r: i16) -> i16
    ensures { result ≡ mean l r }
{
    let above = ((i32::from(l) + i32::from(r) + 1) >> 1) as i16;
    if ((l ^ r) & 1 != 0) & goes_down(above) {
        above - 1
    } else {
        above
    }
}
