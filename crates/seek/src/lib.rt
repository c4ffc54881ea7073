// Seeking frame k of a recording: from the save that serves best forward to it.
#![tactic(auto)]

ghost use Rattle.std.specs.Prelude.{◌≡◌};
ghost use Rattle.seek.specs.Seek as Seek;

use refusal::Refusal;
use slots::Slot;
use state::State;

// The state that frame k will be decoded with. All that is lent is lent shared: shelf and recording are as they were.
pub fn seek(
    words: &[i16],
    bytes: &[u8],
    slots: &[Slot],
    images: &[u8],
    recording: &[u8],
    k: u32,
) -> Result<State, Refusal>
    ensures { Seek.answer result ≡ Seek.seek words.now bytes.now slots.now images.now recording.now k }
{
    let sixteen = shelf::lent(slots, images.len())?;
    let b = best_save::best(sixteen, k).ok_or(Refusal::NoFrame)?;
    if !places::has_frame(recording, k) {
        return Err(Refusal::NoFrame);
    }
    rules::check(words, bytes)?;
    let state = shelf::fetch(slots, images, b as u32)?;
    let from = sixteen[b].frame;
    Ok(forward::forward(words, bytes, state, recording, from, k))
}
