// The finish call of a chain (document 02, Q-1): each resampler's last frame, where an output falls on it, runs on through the later stages.
#![tactic(auto)]

ghost use Rattle.std.specs.Prelude.{◌≡◌, [], OnOk, OnErr};
ghost use Rattle.pcm.specs.Frames.{frames_of};
ghost use Rattle.answers.specs.FinishAnswers.{finish_told};
ghost use Rattle.turns.specs.Turns.{halves, source_at, TurnAsks};
ghost use Rattle.chains.specs.Chains.{Headed};
ghost use Rattle.end_turns.specs.EndTurns.{ServedToEnd};
ghost use Rattle.finish.specs.FinishCall.{finish_verdict, finished, finish_call};
ghost use Rattle.finish.specs.Told.{finish_call_told};
ghost use Rattle.finish.specs.Turns.{EndTurn, Finishes};

use answers::Answer;
use chains::{Chain, Head, Outcome};
use end_turns::EndApplied;
use pcm::{Error, PcmFormat};
use pipeline::Pipeline;
use questions::{Asking, Question};
use stage::Stage;

// The questions of a finish, in their order, by the walk that asks a block's: nothing arrives at the first stage.
fn finish_question<C: Chain>(chain: &C, own: Head, shorter: usize) -> Result<(), Error>
    requires { Headed (C.chain chain.now) own }
    ensures { result ≡ finish_verdict (C.chain chain.now) shorter }
{
    let asking = Asking {
        question: Question::Finish,
        shorter,
    };
    let start = asking.begun(own.format, own.count, 0);
    let walk = block::walked(chain, own, asking, start)?;
    questions::room_question(walk)
}

// The turn of a stage that ends, between the halves as in a block of no bytes: the first stage reads nothing.
fn turn(format: PcmFormat, s: Stage, i: usize, n: usize, a: &mut [u8], b: &mut [u8]) -> EndApplied
    requires { TurnAsks i n [] (halves a.old b.old) (ServedToEnd format s) }
    ensures { EndTurn format s (frames_of format.channels (source_at i n [] (halves a.old b.old))) i result.len result.clipped (halves a.old b.old) (halves a.new b.new) }
{
    turns::between_halves(
        i,
        n,
        &[],
        a,
        b,
        |input, out| end_turns::end_turn(format, s, input, out),
    )
}

// A finish whose questions were all answered yes: every stage in turn, also after one that delivers nothing; then the chain is cleared as by reset.
fn play<C: Chain>(chain: &mut C, own: Head, a: &mut [u8], b: &mut [u8]) -> Answer<()>
    requires head { Headed (C.chain chain.old) own }
    requires finishes { Finishes (C.chain chain.old) a.old b.old }
    ensures all { record { chain = C.chain chain.new; answer = Ok result; a = a.new; b = b.new } ≡ finished (C.chain chain.old) (halves a.old b.old) }
    ensures rest { chain.new ≡ C.cleared chain.old }
{
    let mut format = own.format;
    let mut len: usize = 0;
    let mut clipped: usize = 0;
    for i in 0..own.count {
        let s = chain.stage(i);
        let t = turn(format, s, i, len, a, b);
        len = t.len;
        clipped += t.clipped;
        format = stage::format_after(format, s.kind);
    }
    chain.clear();
    answers::answered(format, (), own.count, len, clipped)
}

// The finish call on a chain, however it is kept. The output, where there is one, stands at the front of the half named. A refusal alters
// nothing.
// A stage can deliver more here than of any block before, so halves of which `scratch_bytes` says that they suffice for a block need not
// suffice for a finish: 1,000 to 1 Hz, 1 to 1,000 Hz and 1,000 to 4,000 Hz after 1,001 frames.
pub fn call<C: Chain>(chain: &mut C, a: &mut [u8], b: &mut [u8]) -> Result<Answer<()>, Error>
    ensures all { record { chain = C.chain chain.new; answer = result; a = a.new; b = b.new } ≡ finish_call (C.chain chain.old) a.old b.old }
    ensures cleared { OnOk result (chain.new ≡ C.cleared chain.old) }
    ensures refused { OnErr result (chain.new ≡ chain.old) }
{
    let own = chain.head()?;
    finish_question(chain, own, a.len().min(b.len()))?;
    Ok(play(chain, own, a, b))
}

// The finish call on a chain by value.
pub fn finish(mut chain: Pipeline, a: &mut [u8], b: &mut [u8]) -> Outcome<()>
    ensures all { record { chain = result.chain; answer = result.answer; a = a.new; b = b.new } ≡ finish_call chain a.old b.old }
    ensures told { finish_told result.answer ≡ finish_call_told chain a.old b.old }
{
    let answer = call(&mut chain, a, b);
    Outcome { chain, answer }
}
