ghost use Rattle.std.specs.Prelude.{◌≡◌, ◌<◌, ◌++◌, ◌∷◌, ℕ, [], List, IfOk, IsTrue, false};
ghost use Rattle.ub_check.specs.Numbers.{HasJust, IsNone};

use std::alloc::{AllocError, Global};
use std::marker::Model;

/// A set of numbers below a bound, a bit for each.
#[derive(Drop)]
pub struct Numbers {
    bound: u32,
    words: Vec<u64>,
}

impl Model for Numbers {
    ghost use Rattle.std.specs.Prelude.{◌≤◌, ◌*◌, length};
    ghost use Rattle.ub_check.specs.Numbers.{NumbersView, numbers_view};

    ghost Value = { NumbersView };

    ghost view = { λ s. numbers_view s.bound s.words.items };

    ghost invariant = { λ s. s.bound ≤ 64 * length s.words.items };
}

impl Numbers {
    /// None yet, of those below a bound. Memory for all of them is taken here.
    pub fn below(alloc: Global, bound: u32) -> Result<Numbers, AllocError>
        ensures bound { IfOk result (λ set. set.bound ≡ bound) }
        ensures none { IfOk result (λ set. HasJust set []) }
    {
        let words = vec![in alloc; 0u64; bound.div_ceil(64) as usize]?;
        Ok(Numbers { bound, words })
    }

    /// Puts a number in. It isn't new where it is in already, or isn't below the bound; nothing changes then.
    pub fn put(&mut self, number: u32) -> bool
        ensures bound { self.new.bound ≡ self.old.bound }
        ensures new { (met : List ℕ) → HasJust self.old met → IsTrue result
            → (number < self.old.bound) × IsNone number met × HasJust self.new (met ++ number ∷ []) }
        ensures refused { (met : List ℕ) → HasJust self.old met → result ≡ false
            → number < self.old.bound → ¬ (IsNone number met) }
    {
        if number >= self.bound {
            return false;
        }
        let place = (number / 64) as usize;
        let word = self.words[place];
        if (word >> (number % 64)) % 2 == 1 {
            return false;
        }
        self.words[place] = word | 1 << (number % 64);
        true
    }
}
