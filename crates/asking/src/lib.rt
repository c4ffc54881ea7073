// The questions that the replaying programs are asked: lines of numbers, each taken in turn.
#![tactic(auto)]

ghost use Rattle.std.specs.Prelude.{◌≡◌, ℕ, List, length};
ghost use Rattle.asking.specs.Asked.{Asked};

use questions::Question;

// Each question of a text, in turn.
pub fn each<F: FnMut(Question)>(text: &[u8], mut answer: F)
    requires { F.IsAlwaysCallable answer }
    ensures { (last : F) × Asked F.step text.now answer 0 last }
{
    let mut from = 0;
    // Not counted: it goes on by what a question takes.
    while from < text.len() {
        let q = questions::line(text, from);
        from = q.next;
        answer(q);
    }
}

// Each question of standard input, as far as there is room for it. The result is how many bytes were read.
pub fn each_asked<F: FnMut(Question)>(rt: &HostRuntime, answer: F) -> usize
    requires { F.IsAlwaysCallable answer }
    ensures { (text : List ℕ) × (length text ≡ result) × (last : F) × Asked F.step text answer 0 last }
{
    let mut room = [0u8; 262144];
    let n = pipe::moved(pipe::read_full(rt, &mut room));
    each(&room[..n], answer);
    n
}
