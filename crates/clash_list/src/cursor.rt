//! The pair of logs that comes next.

ghost use Rattle.std.specs.Prelude.{◌≡◌, ◌≤◌, ◌+◌, ℕ, [], ◌∷◌, length, drop, MatchOption};
ghost use Rattle.clash_list.specs.declared.clashes.Clash.{Clash};
ghost use Rattle.clash_list.specs.Walks.{pairs_left, products_left};

/// The places of the two logs of a pair.
#[derive(Clone, Copy)]
pub(crate) struct Cursor {
    pub left: usize,
    pub right: usize,
}

impl Cursor {
    /// Gives the next pair of two of the logs, and goes on.
    pub fn next_pair(&mut self, logs: &[u32]) -> Option<(u32, u32)>
        requires { length logs.now ≤ self.old.right → self.old.right ≡ self.old.left + 1 }
        ensures turn { length logs.now ≤ self.new.right → self.new.right ≡ self.new.left + 1 }
        ensures next { (clash : ℕ → ℕ → Clash) → MatchOption result
            (pairs_left clash (drop self.old.left logs.now) (drop self.old.right logs.now) ≡ [])
            (λ pair. pairs_left clash (drop self.old.left logs.now) (drop self.old.right logs.now)
            ≡ clash pair.0 pair.1 ∷
            pairs_left clash (drop self.new.left logs.now) (drop self.new.right logs.now)) }
    {
        if self.left >= logs.len() || self.right >= logs.len() {
            return None;
        }
        let pair = (logs[self.left], logs[self.right]);
        if self.right + 1 < logs.len() {
            self.right += 1;
        } else {
            self.left += 1;
            self.right = self.left + 1;
        }
        Some(pair)
    }

    /// Gives the next pair of one of the first logs and one of the second, and goes on.
    pub fn next_product(&mut self, lefts: &[u32], rights: &[u32]) -> Option<(u32, u32)>
        requires { length rights.now ≤ self.old.right → self.old.right ≡ 0 }
        ensures turn { length rights.now ≤ self.new.right → self.new.right ≡ 0 }
        ensures next { (clash : ℕ → ℕ → Clash) → MatchOption result
            (products_left clash (drop self.old.left lefts.now) (drop self.old.right rights.now)
            rights.now ≡ [])
            (λ pair. products_left clash (drop self.old.left lefts.now)
            (drop self.old.right rights.now) rights.now ≡ clash pair.0 pair.1 ∷
            products_left clash (drop self.new.left lefts.now) (drop self.new.right rights.now)
            rights.now) }
    {
        if self.left >= lefts.len() || self.right >= rights.len() {
            return None;
        }
        let pair = (lefts[self.left], rights[self.right]);
        if self.right + 1 < rights.len() {
            self.right += 1;
        } else {
            self.left += 1;
            self.right = 0;
        }
        Some(pair)
    }
}
