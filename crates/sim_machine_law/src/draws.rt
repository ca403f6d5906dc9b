ghost use Rattle.std.specs.Prelude.{◌≡◌, ◌≤◌, ◌+◌, ◌≤ℤ◌, ◌<ℤ◌, ◌-ℤ◌, ℕ, nat_abs};
ghost use Rattle.sim_machine.specs.State.{State, Plan};
ghost use Rattle.sim_machine.specs.Effect.{drawn_number, draw};

/// A drawn number lies in its range, and each number of the range is drawn by some word that is no greater than the range is
/// long (this project's own; SimPy draws no numbers).
pub fn drawn_numbers()
    ensures least { (word : _) (lo : _) (hi : _) → lo ≤ℤ hi → lo ≤ℤ drawn_number word lo hi }
    ensures greatest { (word : _) (lo : _) (hi : _) → lo ≤ℤ hi → drawn_number word lo hi ≤ℤ hi }
    ensures each { (lo : _) (hi : _) (n : _) → lo ≤ℤ n → n ≤ℤ hi →
        (word : ℕ) × (word ≤ nat_abs (hi -ℤ lo)) × (drawn_number word lo hi ≡ n) }
{}

/// A draw takes the next random word, and one from an empty range takes none (this project's own).
pub fn drawn_words<B>()
    ensures one { (g : Plan B) (s : State B) (lo : _) (hi : _) →
        lo ≤ℤ hi → (draw g lo hi s).drawn ≡ s.drawn + 1 }
    ensures none { (g : Plan B) (s : State B) (lo : _) (hi : _) →
        hi <ℤ lo → (draw g lo hi s).drawn ≡ s.drawn }
{}
