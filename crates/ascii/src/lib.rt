// Characters written to lent bytes, as ASCII. Each function that writes does so from `at` on, and returns the place
// behind what it wrote.
#![tactic(auto)]

ghost use Rattle.std.specs.Prelude.{◌+◌, ◌-◌, ◌≤◌, ◌<◌, ◌≡◌, [], ◌∷◌, length, cond, ltb};
ghost use Rattle.lists.specs.Placed.{Placed};

// The digit of a number below 16. Those from 10 on are letters, the first of which is given.
pub fn digit(n: u8, ten: u8) -> u8
    requires { (n < 16) × (ten + 6 ≤ 256) }
    ensures { result ≡ cond (ltb n 10) (48 + n) (ten + (n - 10)) }
{
    if n < 10 { b'0' + n } else { ten + (n - 10) }
}

// Writes one character.
#[tactic(auto, using(crate::proofs::Laws::placed_one))]
pub fn put(text: &mut [u8], at: usize, character: u8) -> usize
    requires { at < length text.old }
    ensures { Placed (character ∷ []) at text.old text.new result }
{
    text[at] = character;
    at + 1
}

// Writes some characters.
pub fn put_all(text: &mut [u8], at: usize, characters: &[u8]) -> usize
    requires { at + length characters.now ≤ length text.old }
    ensures { Placed characters.now at text.old text.new result }
{
    let end = at + characters.len();
    text[at..end].copy_from_slice(characters);
    end
}
