//! An instruction to the depository: its kind, its fields, and its bytes.
//!
//! Instructions and their bytes match one to one: `to_bytes` promises it by its clauses `laid_out`
//! and `read_back`, `from_bytes` by `exact`. Which fields a kind uses is stated once, by
//! `Kind::uses`. The clause `law` of `has_stray_field` guards it, field by field, in words of its
//! own.
#![tactic(auto)]

ghost use Rattle.std.specs.Prelude.{◌≡◌, ◌+◌, ◌≤◌, length, Ok};
ghost use Rattle.instruction.specs.Kinds.{code_of, Decodes, KindsAndCodes};
ghost use Rattle.instruction.specs.Fields.{value_of, uses, has_stray, StrayLaw};
ghost use Rattle.instruction.specs.Layout.{of_kind, on_trade, bytes_of, instruction_in, number_at, IsLaidOut, Reads};

use little_endian::LittleEndian;
use refusals::Refusal;

/// The number of bytes of an instruction.
pub const INSTRUCTION_SIZE: usize = 32;

/// What an instruction asks for. A variant's value is its kind byte, 1 to 7.
#[derive(Clone, Copy, Debug, PartialEq, Eq)]
pub enum Kind {
    /// Credits an account with a quantity of an item of securities.
    Issue = 1,
    /// Credits an account with an amount of a currency.
    PayIn,
    /// Enters a trade with its parties and terms.
    Enter,
    /// Blocks the seller's securities.
    Earmark,
    /// Blocks the buyer's cash.
    Fund,
    /// Delivers the securities against the cash.
    Settle,
    /// Ends a trade that is not settled, and frees what it has blocked.
    Free,
}

/// The kind byte.
impl From<Kind> for u8 {
    ghost from_gives = { λ kind code. code ≡ code_of kind };

    fn from(kind: Kind) -> u8
        ensures value { result ≡ code_of kind }
        ensures paired { KindsAndCodes }
    {
        kind as u8
    }
}

/// The kind that a kind byte means.
///
/// # Errors
///
/// `UnknownKind` if the byte is not 1 to 7.
impl TryFrom<u8> for Kind {
    type Error = Refusal;

    ghost try_from_gives = { Decodes };

    fn try_from(code: u8) -> Result<Kind, Refusal> {
        match code {
            1 => Ok(Kind::Issue),
            2 => Ok(Kind::PayIn),
            3 => Ok(Kind::Enter),
            4 => Ok(Kind::Earmark),
            5 => Ok(Kind::Fund),
            6 => Ok(Kind::Settle),
            7 => Ok(Kind::Free),
            _ => Err(Refusal::UnknownKind),
        }
    }
}

/// A field of an instruction other than its kind.
#[derive(Clone, Copy, Debug, PartialEq, Eq)]
pub enum Field {
    /// The account that is credited, or the seller.
    Account,
    /// The buyer.
    Counterparty,
    /// An item of securities.
    Item,
    /// An item of cash.
    Currency,
    /// A trade's number.
    Trade,
    /// So much of the item.
    Quantity,
    /// So much of the currency.
    Amount,
}

impl Field {
    /// All fields, in the order of the bytes.
    pub const ALL: [Field; 7] = [
        Field::Account,
        Field::Counterparty,
        Field::Item,
        Field::Currency,
        Field::Trade,
        Field::Quantity,
        Field::Amount,
    ];
}

impl Kind {
    /// Whether an instruction of this kind uses the field. In any other field it has 0.
    pub fn uses(self, field: Field) -> bool
        ensures { result ≡ uses self field }
    {
        match self {
            Kind::Issue => matches!(field, Field::Account | Field::Item | Field::Quantity),
            Kind::PayIn => matches!(field, Field::Account | Field::Currency | Field::Amount),
            Kind::Enter => true,
            Kind::Earmark | Kind::Fund | Kind::Settle | Kind::Free => field == Field::Trade,
        }
    }
}

/// An instruction as it comes in. The rules judge whether its kind is known, and its fields.
#[derive(Clone, Copy, Debug, Default, PartialEq, Eq)]
pub struct Instruction {
    /// The kind byte, which may mean no kind.
    pub kind: u8,
    /// The account that is credited, or the seller.
    pub account: u16,
    /// The buyer.
    pub counterparty: u16,
    /// The number of an item of securities.
    pub item: u16,
    /// The number of a currency.
    pub currency: u16,
    /// The number of a trade.
    pub trade: u32,
    /// So much of the item.
    pub quantity: u64,
    /// So much of the currency.
    pub amount: u64,
}

impl Instruction {
    /// An instruction of the kind with 0 in each other field.
    pub fn of_kind(kind: Kind) -> Instruction
        ensures { result ≡ of_kind kind }
    {
        Instruction {
            kind: kind.into(),
            ..Instruction::default()
        }
    }

    /// An instruction of the kind that names a trade, with 0 in each other field.
    pub fn on_trade(kind: Kind, trade: u32) -> Instruction
        ensures { result ≡ on_trade kind trade }
    {
        Instruction {
            trade,
            ..Instruction::of_kind(kind)
        }
    }

    /// The number in a field.
    pub fn value_of(&self, field: Field) -> u64
        ensures { result ≡ value_of field self.now }
    {
        match field {
            Field::Account => self.account.into(),
            Field::Counterparty => self.counterparty.into(),
            Field::Item => self.item.into(),
            Field::Currency => self.currency.into(),
            Field::Trade => self.trade.into(),
            Field::Quantity => self.quantity,
            Field::Amount => self.amount,
        }
    }

    /// Whether some field that the kind leaves unused is not 0.
    #[tactic(auto, using(crate::proofs::Strays::stray_or_zero))]
    pub fn has_stray_field(&self, kind: Kind) -> bool
        ensures value { result ≡ has_stray kind self.now }
        ensures law { StrayLaw }
    {
        Field::ALL
            .iter()
            .any(|field| !kind.uses(*field) && self.value_of(*field) != 0)
    }

    /// The instruction's bytes: docs/LAYOUTS.md has the layout.
    pub fn to_bytes(self) -> [u8; INSTRUCTION_SIZE]
        ensures value { result ≡ bytes_of self }
        ensures laid_out { IsLaidOut result self }
        ensures read_back { instruction_in result ≡ Ok self }
    {
        let [a0, a1]: [u8; 2] = self.account.to_little_endian();
        let [b0, b1]: [u8; 2] = self.counterparty.to_little_endian();
        let [i0, i1]: [u8; 2] = self.item.to_little_endian();
        let [c0, c1]: [u8; 2] = self.currency.to_little_endian();
        let [t0, t1, t2, t3]: [u8; 4] = self.trade.to_little_endian();
        let [q0, q1, q2, q3, q4, q5, q6, q7]: [u8; 8] = self.quantity.to_little_endian();
        let [m0, m1, m2, m3, m4, m5, m6, m7]: [u8; 8] = self.amount.to_little_endian();
        [
            self.kind, 0, a0, a1, b0, b1, i0, i1, c0, c1, 0, 0, t0, t1, t2, t3, q0, q1, q2, q3, q4,
            q5, q6, q7, m0, m1, m2, m3, m4, m5, m6, m7,
        ]
    }

    /// The instruction that the bytes are.
    ///
    /// # Errors
    ///
    /// `Malformed` if the bytes are not `INSTRUCTION_SIZE` many, or one that no field has is not 0.
    pub fn from_bytes(bytes: &[u8]) -> Result<Instruction, Refusal>
        ensures value { result ≡ instruction_in bytes.now }
        ensures exact { Reads bytes.now result }
    {
        if bytes.len() != INSTRUCTION_SIZE {
            return Err(Refusal::Malformed);
        }
        if bytes[1] != 0 || bytes[10] != 0 || bytes[11] != 0 {
            return Err(Refusal::Malformed);
        }
        Ok(Instruction {
            kind: bytes[0],
            account: number_at(bytes, 2),
            counterparty: number_at(bytes, 4),
            item: number_at(bytes, 6),
            currency: number_at(bytes, 8),
            trade: number_at(bytes, 12),
            quantity: number_at(bytes, 16),
            amount: number_at(bytes, 24),
        })
    }
}

// The number in the N bytes from place `at` on.
fn number_at<T: LittleEndian<N>, const N: usize>(b: &[u8], at: usize) -> T
    requires { at + N ≤ length b.now }
    ensures { T.value result ≡ number_at at N b.now }
{
    let mut bytes = [0; N];
    bytes.copy_from_slice(&b[at..at + N]);
    T::from_little_endian(&bytes)
}
