//! A book of holdings as an interface: what each account has of each item, free and blocked.
//!
//! What keeps a book is proved against this meaning, and what uses a book is proved from it alone.
//! The clauses `answer` and `after` of each call fix its answer, with the checks in their order,
//! and the amounts that it leaves; `within_limit` promises that no item passes its ceiling.
#![tactic(auto)]

ghost use Rattle.std.specs.Prelude.{◌≡◌, ℕ, ◌^◌, ◌<◌, ◌≤◌, ◌⊎◌};
ghost use Rattle.book.specs.declared.TheConstants.{ACCOUNTS};
ghost use Rattle.book.specs.Holdings.{Holdings, BookKind, nothing, limit, total, crediting, blocking, releasing, moving};
ghost use Rattle.book.specs.Rulings.{ruling, outcome, amount_answer, cover_answer, place_answer, holding_of, total_answer};

mod boxed;

use refusals::Refusal;

/// How many accounts a book has, numbered from 0.
pub const ACCOUNTS: u16 = 64;

/// What an account has of one item.
#[derive(Clone, Copy, Debug, Default, PartialEq, Eq)]
pub struct Holding {
    /// What the account may use.
    pub free: u64,
    /// What open trades hold.
    pub blocked: u64,
}

/// Whether a quantity can be taken from an amount.
///
/// # Errors
///
/// `NoQuantity` if the quantity is 0, then `short` if the amount is less.
pub fn covers(amount: u64, quantity: u64, short: Refusal) -> Result<(), Refusal>
    ensures { result ≡ cover_answer amount quantity short }
{
    if quantity == 0 {
        return Err(Refusal::NoQuantity);
    }
    if amount < quantity {
        return Err(short);
    }
    Ok(())
}

/// A book. Its accounts are numbered below `ACCOUNTS`, and its items below `items()`.
///
/// # Errors
///
/// A call is refused with `NoAccount`, then `NoItem`, where the book has not the account or item.
/// A change is refused with `NoQuantity` if the quantity is 0, and then as its method says. A
/// refused call leaves the book as it was.
pub trait Book {
    /// What each account has of each item.
    ghost holdings: { Self → Holdings };

    /// What the kind of book fixes.
    ghost book_kind: { BookKind };

    /// All amounts become 0.
    fn clear(&mut self)
        ensures { holdings self.new ≡ nothing };

    /// Adds to the free amount: `OverCeiling` if the item's total would pass its ceiling.
    fn credit(&mut self, account: u16, item: u16, quantity: u64) -> Result<(), Refusal>
        ensures answer { result
            ≡ ruling book_kind (holdings self.old) (crediting account item quantity) }
        ensures after { holdings self.new
            ≡ outcome book_kind (holdings self.old) (crediting account item quantity) };

    /// From free to blocked: `OverFree` if the account has less free.
    fn block(&mut self, account: u16, item: u16, quantity: u64) -> Result<(), Refusal>
        ensures answer { result
            ≡ ruling book_kind (holdings self.old) (blocking account item quantity) }
        ensures after { holdings self.new
            ≡ outcome book_kind (holdings self.old) (blocking account item quantity) };

    /// From blocked back to free: `OverBlocked` if the account has less blocked.
    fn release(&mut self, account: u16, item: u16, quantity: u64) -> Result<(), Refusal>
        ensures answer { result
            ≡ ruling book_kind (holdings self.old) (releasing account item quantity) }
        ensures after { holdings self.new
            ≡ outcome book_kind (holdings self.old) (releasing account item quantity) }
    {
        self.transfer(account, account, item, quantity)
    }

    /// From the blocked amount of `from` to the free amount of `to`, which may be the same account:
    /// `OverBlocked` if `from` has less blocked.
    fn transfer(&mut self, from: u16, to: u16, item: u16, quantity: u64) -> Result<(), Refusal>
        ensures answer { result
            ≡ ruling book_kind (holdings self.old) (moving from to item quantity) }
        ensures after { holdings self.new
            ≡ outcome book_kind (holdings self.old) (moving from to item quantity) };

    /// Free and blocked together.
    fn holding(&self, account: u16, item: u16) -> Result<Holding, Refusal>
        ensures { result ≡ amount_answer book_kind (holding_of (holdings self.now)) account item };

    /// How many items the book has, numbered from 0.
    fn items(&self) -> u16
        ensures { result ≡ book_kind.items };

    /// The kind byte. It is no enum, so that anyone may write a book of a further kind.
    fn kind(&self) -> u8
        ensures { result ≡ book_kind.code };

    /// The most that an item may total.
    fn ceiling(&self) -> u64
        ensures { result ≡ book_kind.ceiling };

    /// Whether the book has the account and the item.
    fn check_place(&self, account: u16, item: u16) -> Result<(), Refusal>
        ensures { result ≡ place_answer book_kind account item }
    {
        if account >= ACCOUNTS {
            return Err(Refusal::NoAccount);
        }
        if item < self.items() {
            Ok(())
        } else {
            Err(Refusal::NoItem)
        }
    }

    /// The free amount.
    fn free(&self, account: u16, item: u16) -> Result<u64, Refusal>
        ensures { result ≡ amount_answer book_kind (holdings self.now).free account item }
    {
        self.holding(account, item).map(|holding| holding.free)
    }

    /// The blocked amount.
    fn blocked(&self, account: u16, item: u16) -> Result<u64, Refusal>
        ensures { result ≡ amount_answer book_kind (holdings self.now).blocked account item }
    {
        self.holding(account, item).map(|holding| holding.blocked)
    }

    /// The free amount, and 0 where the book has no such account or item.
    fn available(&self, account: u16, item: u16) -> u64
        ensures { result ≡ (holdings self.now).free account item }
    {
        self.free(account, item).unwrap_or(0)
    }

    /// An item's amounts over all accounts.
    fn total(&self, item: u16) -> Result<u64, Refusal>
        ensures { result ≡ total_answer book_kind (holdings self.now) item }
    {
        if item >= self.items() {
            return Err(Refusal::NoItem);
        }
        let mut sum = 0u64;
        for account in 0..ACCOUNTS {
            let holding = self.holding(account, item)?;
            sum += holding.free + holding.blocked;
        }
        Ok(sum)
    }

    /// What a credit would be answered. It changes nothing.
    fn credit_ruling(&self, account: u16, item: u16, quantity: u64) -> Result<(), Refusal>
        ensures { result ≡ ruling book_kind (holdings self.now) (crediting account item quantity) }
    {
        if account >= ACCOUNTS {
            return Err(Refusal::NoAccount);
        }
        let total = self.total(item)?;
        if quantity == 0 {
            return Err(Refusal::NoQuantity);
        }
        if quantity > self.ceiling() - total {
            return Err(Refusal::OverCeiling);
        }
        Ok(())
    }

    /// No item totals more than its limit.
    ghost within_limit: { (b : Self) (item : ℕ)
        → total (holdings b) item ≤ limit book_kind (holdings b) item };

    /// There is nothing of an account or an item that the book has not.
    ghost nothing_outside: { (b : Self) (account item : ℕ)
        → (ACCOUNTS ≤ account) ⊎ (book_kind.items ≤ item)
        → ((holdings b).free account item ≡ 0) × ((holdings b).blocked account item ≡ 0) };

    /// The kind's numbers fit the types in which they are answered.
    ghost kind_fits: { (book_kind.code < 2 ^ 8) × (book_kind.items < 2 ^ 16)
        × (book_kind.ceiling < 2 ^ 64) };

    /// A book has some item, and room for some of it, so that no book may refuse everything.
    ghost kind_useful: { (0 < book_kind.items) × (0 < book_kind.ceiling) };
}
