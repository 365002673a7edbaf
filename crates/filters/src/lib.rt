// What a filter keeps between samples, and the loop that every filter takes (dc_block.rs, biquad.rs).
#![tactic(auto)]

ghost use Rattle.std.specs.Prelude.{◌≡◌, ℤ};
ghost use Rattle.filters.specs.Filters.{memory_at_rest, taps_of, memory_of_taps, FilterBlock, FilteredBlock};

// One channel's two earlier inputs and two earlier outputs; the outputs are kept unrounded.
#[derive(Clone, Copy)]
pub struct Taps {
    pub x1: f32,
    pub x2: f32,
    pub y1: f32,
    pub y2: f32,
}

// Two earlier inputs and two earlier outputs for each channel; the outputs are kept unrounded.
#[derive(Clone, Copy)]
pub struct FilterMemory {
    pub x1: [f32; 2],
    pub x2: [f32; 2],
    pub y1: [f32; 2],
    pub y2: [f32; 2],
}

// What a filter answers of a block: its memory afterwards, and how many samples it held back.
#[derive(Clone, Copy)]
pub struct Filtered {
    pub memory: FilterMemory,
    pub clipped: usize,
}

impl FilterMemory {
    // Each channel starts at +0.
    pub fn new() -> FilterMemory
        ensures { result ≡ memory_at_rest }
    {
        FilterMemory {
            x1: [0.0, 0.0],
            x2: [0.0, 0.0],
            y1: [0.0, 0.0],
            y2: [0.0, 0.0],
        }
    }

    // Each channel's taps.
    fn taps(self) -> [Taps; 2]
        ensures { result ≡ taps_of self }
    {
        [
            Taps {
                x1: self.x1[0],
                x2: self.x2[0],
                y1: self.y1[0],
                y2: self.y2[0],
            },
            Taps {
                x1: self.x1[1],
                x2: self.x2[1],
                y1: self.y1[1],
                y2: self.y2[1],
            },
        ]
    }

    // The memory of channels with these taps.
    fn of_taps(taps: [Taps; 2]) -> FilterMemory
        ensures { result ≡ memory_of_taps taps }
    {
        FilterMemory {
            x1: taps.map(|t| t.x1),
            x2: taps.map(|t| t.x2),
            y1: taps.map(|t| t.y1),
            y2: taps.map(|t| t.y2),
        }
    }
}

// A filter: one channel's taps after a sample. The new y1 is the output before it is rounded.
pub trait Tick {
    ghost use Rattle.filters.specs.declared.Taps.{Taps};

    ghost tick: { Self → Taps → ℤ → Taps };

    fn tick(&self, taps: Taps, x: i16) -> Taps
        ensures { result ≡ tick self.now taps x };
}

// Filters the whole frames of `input` into the front of `out`, each channel by its own taps. A frame is read before it is written, so
// that its channels can go side by side.
fn frames<T: Tick, const C: usize>(
    filter: &T,
    input: &[u8],
    out: &mut [u8],
    memory: FilterMemory,
) -> Filtered
    requires { FilterBlock C input.now out.old }
    ensures { FilteredBlock (T.tick filter.now) C memory input.now out.old out.new result }
{
    let mut taps = memory.taps();
    let mut clipped: usize = 0;
    for k in 0..input.len() / (C * 2) {
        for c in 0..C {
            taps[c] = filter.tick(taps[c], pcm::get_i16(input, (k * C + c) * 2));
        }
        for c in 0..C {
            pcm::put_i16(out, (k * C + c) * 2, floats::rounded16(taps[c].y1));
            clipped += usize::from(floats::clipped(taps[c].y1));
        }
    }
    Filtered {
        memory: FilterMemory::of_taps(taps),
        clipped,
    }
}

// The same for a channel count that is known only when it runs; the memory goes in and comes back, beside how many samples were held back.
pub fn process<T: Tick>(
    filter: &T,
    input: &[u8],
    out: &mut [u8],
    channels: usize,
    memory: FilterMemory,
) -> Filtered
    requires { FilterBlock channels input.now out.old }
    ensures { FilteredBlock (T.tick filter.now) channels memory input.now out.old out.new result }
{
    if channels == 1 {
        frames::<T, 1>(filter, input, out, memory)
    } else {
        frames::<T, 2>(filter, input, out, memory)
    }
}
