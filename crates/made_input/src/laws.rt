//! Laws of the made input: how many lines it has, and how long they are.
ghost use Rattle.std.specs.Prelude.{◌≡◌, ◌≢◌, ◌==◌, ◌<◌, ◌≤◌, ◌++◌, ◌∷◌, [], ℕ, All, length};
ghost use Rattle.std.specs.List.{slice_split};
ghost use Rattle.made_input.specs.Made.{joined, made, made_lines};

/// The input consists of its lines, as many as it is asked for, each with its newline and with none inside of it; cut at each
/// newline it is those lines, with nothing behind the last one.
pub fn made_input_is_its_lines()
    ensures whole { (number n : ℕ) → made number n ≡ joined (made_lines number n) }
    ensures count { (number n : ℕ) → 0 < n → length (made_lines number n) ≡ n }
    ensures lines { (number n : ℕ) → All (All (λ b. b ≢ 10)) (made_lines number n) }
    ensures parts { (number n : ℕ) → slice_split (λ b. b == 10) (made number n) ≡ made_lines number n ++ [] ∷ [] }
{}

/// A line has at most 45,000 bytes, and an input of at most 1,000 lines has at most 67,108,864.
pub fn made_input_is_short()
    ensures lines { (number n : ℕ) → All (λ line. length line ≤ 45000) (made_lines number n) }
    ensures input { (number n : ℕ) → n ≤ 1000 → length (made number n) ≤ 67108864 }
{}
