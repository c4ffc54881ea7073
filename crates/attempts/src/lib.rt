// What the trying programs share: the cases that they are given, a line each on standard input.
#![tactic(auto)]

ghost use Rattle.std.specs.Prelude.{◌≡◌, ℕ, ◌≢◌, List, ◌∷◌, ◌++◌, length, All, MatchOption};
ghost use Rattle.std.specs.Fn.{CalledAt};
ghost use Rattle.attempts.specs.Attempted.{Attempted};

// Each line, of as many as a chunk has; a last one without its end counts too. The result is how many bytes were read.
pub fn each_case<F: FnMut(&[u8])>(rt: &HostRuntime, attempt: F) -> usize
    requires { F.IsAlwaysCallable attempt }
    ensures { (text : List ℕ) × (length text ≡ result) × (last : F) × Attempted (λ f x g. CalledAt F.FnMut f x tt g) attempt text last }
{
    let mut input = io::buffer();
    let n = pipe::read(rt, &mut input).unwrap_or(0);
    let text = &input[..n];
    each_line(text, attempt);
    text.len()
}

// Each line of a text. Not a `for` over split_inclusive: the check refuses an invariant of that loop in a function that takes a closure.
fn each_line<F: FnMut(&[u8])>(text: &[u8], mut attempt: F)
    requires { F.IsAlwaysCallable attempt }
    ensures { (last : F) × Attempted (λ f x g. CalledAt F.FnMut f x tt g) attempt text.now last }
{
    let mut rest = text;
    while let Some((line, behind)) = cut(rest, b'\n') {
        attempt(line);
        rest = behind;
    }
    if !rest.is_empty() {
        attempt(rest);
    }
}

// A case's heading.
pub fn head(rt: &HostRuntime, line: &[u8]) {
    let _ = pipe::write(rt, b"== ");
    let _ = pipe::write(rt, line);
    let _ = pipe::write(rt, b"\n");
}

// What stands before a text's first mark, and what stands behind it.
fn cut(text: &[u8], mark: u8) -> Option<(&[u8], &[u8])>
    ensures { MatchOption result (All (λ b. b ≢ mark) text.now) (λ p. (text.now ≡ p.0.now ++ mark ∷ p.1.now) × All (λ b. b ≢ mark) p.0.now) }
{
    let end = text.iter().position(|b| *b == mark)?;
    Some((&text[..end], &text[end + 1..]))
}

// A case's two names: what stands before the line's first blank, and what stands behind it.
pub fn two_names(line: &[u8]) -> Option<(&[u8], &[u8])>
    ensures { MatchOption result (All (λ b. b ≢ 32) line.now) (λ p. (line.now ≡ p.0.now ++ 32 ∷ p.1.now) × All (λ b. b ≢ 32) p.0.now) }
{
    cut(line, b' ')
}
