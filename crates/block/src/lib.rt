// The block call of a chain (pipeline.rs): room asked first, then the stages in turn over two lent halves.
#![tactic(auto)]

ghost use Rattle.std.specs.Prelude.{◌≡◌, ◌≤◌, length, take, OnErr};
ghost use Rattle.pcm.specs.Refusals.{valued};
ghost use Rattle.pipeline.specs.WritingBack.{stages_of};
ghost use Rattle.questions.specs.Walk.{walked, Walked};
ghost use Rattle.answers.specs.Answers.{answer_told, scratch_told};
ghost use Rattle.turns.specs.Turns.{halves};
ghost use Rattle.chain_words.specs.Layout.{chain_at};
ghost use Rattle.chains.specs.Chains.{head_in, Headed};
ghost use Rattle.block.specs.BlockCall.{block_call, accepted, block_verdict, size_asked, scratch_figure, scratch_bytes};
ghost use Rattle.block.specs.Turns.{Accepts};
ghost use Rattle.block.specs.Told.{block_told};
ghost use Rattle.block.specs.laws.Asking.{Asks};

use answers::Answer;
use chains::{Chain, Head, Outcome};
use pcm::{Error, PcmFormat};
use pipeline::Pipeline;
use questions::{Asking, Question, Walk};
use stage::Stage;

// The verdict on a block of so many bytes, whose shorter half is of `shorter` bytes.
fn asked<C: Chain>(
    chain: &C,
    own: Head,
    format: PcmFormat,
    size: usize,
    shorter: usize,
) -> Result<(), Error>
    requires { Headed (C.chain chain.now) own }
    ensures { result ≡ block_verdict (C.chain chain.now) format size shorter }
{
    let asking = Asking {
        question: Question::Block,
        shorter,
    };
    let start = asking.begun(own.format, own.count, size);
    let walk = walked(chain, own, asking, start)?;
    questions::verdict(own.format, format, size, walk)
}

// A block that was accepted, through the stages in turn.
fn play<C: Chain>(
    chain: &mut C,
    own: Head,
    timestamp: u64,
    block: &[u8],
    a: &mut [u8],
    b: &mut [u8],
) -> Answer<u64>
    requires head { Headed (C.chain chain.old) own }
    requires accepts { Accepts (C.chain chain.old) block.now a.old b.old }
    ensures all { record { chain = C.chain chain.new; answer = Ok result; a = a.new; b = b.new } ≡ accepted (C.chain chain.old) timestamp block.now (halves a.old b.old) }
    ensures rest { C.stays chain.old chain.new }
{
    answers::copy_unstaged(own.count, block, a);
    let mut reaching = own.format;
    let mut len = block.len();
    let mut clipped: usize = 0;
    for i in 0..own.count {
        let s = chain.stage(i);
        let kind = s.kind;
        let t = turns::turn(reaching, s, i, len, block, a, b);
        let memory = t.memory;
        chain.hold(i, Stage { kind, memory });
        len = t.len;
        clipped += t.clipped;
        reaching = stage::format_after(reaching, kind);
        if len == 0 {
            break;
        }
    }
    chain.count_block(len);
    answers::answered(reaching, timestamp, own.count, len, clipped)
}

// The block call on a chain, however it is kept. The output, where there is one, stands at the front of the half named. A refusal alters
// nothing.
pub fn call<C: Chain>(
    chain: &mut C,
    format: PcmFormat,
    timestamp: u64,
    block: &[u8],
    a: &mut [u8],
    b: &mut [u8],
) -> Result<Answer<u64>, Error>
    ensures all { record { chain = C.chain chain.new; answer = result; a = a.new; b = b.new } ≡ block_call (C.chain chain.old) format timestamp block.now a.old b.old }
    ensures rest { C.stays chain.old chain.new }
    ensures refused { OnErr result (chain.new ≡ chain.old) }
{
    let own = chain.head()?;
    asked(chain, own, format, block.len(), a.len().min(b.len()))?;
    Ok(play(chain, own, timestamp, block, a, b))
}

// The block call on a chain by value.
pub fn process(
    mut chain: Pipeline,
    format: PcmFormat,
    timestamp: u64,
    block: &[u8],
    a: &mut [u8],
    b: &mut [u8],
) -> Outcome<u64>
    ensures all { record { chain = result.chain; answer = result.answer; a = a.new; b = b.new } ≡ block_call chain format timestamp block.now a.old b.old }
    ensures told { answer_told result.answer ≡ block_told chain format timestamp block.now a.old b.old }
{
    let answer = call(&mut chain, format, timestamp, block, a, b);
    Outcome { chain, answer }
}

// What the walk that asks finds along the stages in use, from the walk before the first of them.
// Kept: the head and the start as parameters: callers begin the walk each with a question, a count and a size of its own, and to ask the chain
// for its head again would read its words twice.
pub fn walked<C: Chain>(chain: &C, own: Head, asking: Asking, start: Walk) -> Result<Walk, Error>
    requires head { own ≡ head_in (C.chain chain.now) }
    requires start { Asks asking.question asking.shorter start.format.rate (C.chain chain.now).stages own.count start start 0 }
    ensures { Walked result (walked asking.question asking.shorter start (stages_of (C.chain chain.now))) }
{
    let mut walk = start;
    for i in 0..own.count {
        walk = asking.step(walk, chain.stage(i))?;
    }
    Ok(walk)
}

// The same along the first `count` stages of words, whether they stand for a chain or not.
// Kept beside `walked`, which goes by a chain's own count, and for which words that stand for no chain are one of nine stages.
pub fn walked_of_words(
    words: &[u32],
    count: usize,
    asking: Asking,
    start: Walk,
) -> Result<Walk, Error>
    requires long { 152 ≤ length words.now }
    requires start { Asks asking.question asking.shorter start.format.rate (chain_at words.now).stages count start start 0 }
    ensures { Walked result (walked asking.question asking.shorter start (take count (chain_at words.now).stages)) }
{
    let mut walk = start;
    for i in 0..count {
        walk = asking.step(walk, chain_words::stage_at(words, i))?;
    }
    Ok(walk)
}

// Twice the bytes of a half: two such halves are enough for any block of `size` bytes, in any state. The block itself counts, as for
// a chain of no stages.
pub fn scratch_of<C: Chain>(chain: &C, size: usize) -> Result<usize, Error>
    ensures { result ≡ scratch_bytes (C.chain chain.now) size }
{
    let own = chain.head()?;
    let asking = Asking {
        question: Question::AnyState,
        shorter: size,
    };
    let start = asking.begun(own.format, 0, size);
    let walk = walked(chain, own, asking, start)?;
    questions::size_question(own.format, size)?;
    Ok(2 * walk.largest)
}

// The same of a chain by value, as document 01 carries it.
pub fn scratch_bytes(chain: Pipeline, size: usize) -> Result<usize, Error>
    ensures all { result ≡ scratch_bytes chain size }
    ensures told { scratch_told result ≡ valued (size_asked chain size (Ok tt)) (scratch_figure chain size) }
{
    scratch_of(&chain, size)
}
