// Which save serves best to reach frame k: of the held ones at or below k, the one with the largest frame number, of equal ones the one of the lowest slot.
#![tactic(auto)]

ghost use Rattle.std.specs.Prelude.{◌≡◌};
ghost use Rattle.slot_users.specs.ByValue as ByValue;
ghost use Rattle.best_save.specs.Best as Best;

use slots::Slot;

// A save: its slot, and its frame number.
#[derive(Clone, Copy)]
struct Save {
    at: usize,
    frame: u32,
}

// Slot j, with the record s, beside the best before it.
#[tactic(auto, unfolding(crate::specs::Best::better, crate::specs::Best::fits, crate::specs::Best::beaten, crate::specs::Best::some_and))]
fn better(b: Option<Save>, j: usize, s: Slot, k: u32) -> Option<Save>
    ensures { result ≡ Best.better k b j s }
{
    if s.users == 0 || k < s.frame {
        return b;
    }
    if let Some(best) = b {
        if s.frame <= best.frame {
            return b;
        }
    }
    Some(Save {
        at: j,
        frame: s.frame,
    })
}

// The slot of the best save, where one is held at or below k.
pub fn best(slots: [Slot; 16], k: u32) -> Option<usize>
    ensures { result ≡ ByValue.some_slot (Best.best slots k) }
{
    let mut b = None;
    for (j, s) in slots.iter().enumerate() {
        b = better(b, j, *s, k);
    }
    b.map(|save| save.at)
}
