//! The accounts of a bank, and the transfers between them.
ghost use Rattle.std.specs.Prelude.{◌≡◌, ◌↔◌, ◌<◌, ◌≤◌, ◌^◌, ◌*◌, false, sum, slice_index, IsTrue};
ghost use Rattle.bank.specs.Transfers.{credited, debited};

pub const ACCOUNTS: usize = 10;

/// The balance of each account. All money together can be counted.
#[derive(Drop)]
pub struct Accounts {
    balances: [u64; ACCOUNTS],
    ghost countable: { sum balances < 2 ^ 64 },
}

impl Accounts {
    pub fn open(balance: u32) -> Accounts
        ensures { sum result.balances ≡ 10 * balance }
    {
        let balances = [u64::from(balance); ACCOUNTS];
        Accounts { balances }
    }

    /// Moves an amount, if the account that it comes from has so much, and says whether it did.
    #[tactic(auto, using(crate::proofs::Sums::sum_moved))]
    pub fn transfer(&mut self, from: usize, to: usize, amount: u64) -> bool
        requires { (from < 10) × (to < 10) }
        ensures enough { IsTrue result ↔ (amount ≤ slice_index self.old.balances from) }
        ensures moved { IsTrue result
            → self.new.balances ≡ credited to amount (debited from amount self.old.balances) }
        ensures refused { result ≡ false → self.new ≡ self.old }
        ensures kept { sum self.new.balances ≡ sum self.old.balances }
    {
        if self.balances[from] < amount {
            return false;
        }
        self.balances[from] -= amount;
        self.balances[to] += amount;
        true
    }

    pub fn total(&self) -> u64
        ensures { result ≡ sum self.now.balances }
    {
        self.balances.iter().sum()
    }
}
