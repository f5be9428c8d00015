// Runs of bytes in a text, and its parts.
ghost use Rattle.std.specs.Prelude.{ℕ, Bool, ◌≤◌, ◌≡◌, max, length, get_or};
ghost use Rattle.words.specs.Spots.{run_end, in_word, is_space, part_of};

// The first place from `from` on whose byte does not belong to the run, or the end.
fn run_end<F: Fn(u8) -> bool>(text: &[u8], from: usize, belongs: F) -> usize
    requires { F.IsAlwaysCallable belongs }
    ensures run { (p : ℕ → Bool) → ((c : ℕ) (r : Bool) → F.post belongs c r → r ≡ p c) → result ≡ run_end text.now from p }
    ensures behind { from ≤ result }
    ensures within { result ≤ max from (length text.now) }
{
    for i in from..text.len() {
        if !belongs(text[i]) {
            return i;
        }
    }
    from.max(text.len())
}

pub fn word_end(text: &[u8], from: usize) -> usize
    ensures end { result ≡ run_end text.now from in_word }
    ensures behind { from ≤ result }
    ensures within { result ≤ max from (length text.now) }
{
    run_end(text, from, |c| b' ' < c)
}

pub fn spaces_end(text: &[u8], from: usize) -> usize
    ensures end { result ≡ run_end text.now from is_space }
    ensures behind { from ≤ result }
    ensures within { result ≤ max from (length text.now) }
{
    run_end(text, from, |c| c == b' ')
}

// All of the text where i or e is no place of it.
#[tactic(auto, unfolding(crate::specs::Spots::part_of))]
pub fn part_of(text: &[u8], i: usize, e: usize) -> &[u8]
    ensures { result.now ≡ part_of text.now i e }
{
    text.get(i..e).unwrap_or(text)
}

// A space where there is none.
pub fn first_byte(text: &[u8]) -> u8
    ensures { result ≡ get_or text.now 0 32 }
{
    text.first().copied().unwrap_or(b' ')
}
