//! The reader of examination scripts: the lines of a script, the tokens of a line, and the request
//! that a line makes.
//!
//! [`read_line`] promises (clause `exact`) the request that the line is the text of, or a refusal
//! where it is the text of none. [`Lines::next_line`] promises (clause `whole`) that the lines,
//! each with its line feed, are the script. The kinds of instructions and the fields that each kind
//! uses are those of `instruction`.
#![tactic(auto)]

ghost use Rattle.std.specs.Prelude.{◌≡◌, ◌^◌, ◌<◌, ◌≤◌, ℕ, Result, true, [], ◌∷◌, length, take, drop, is_some, IfSome, Some, None, MatchOption, ◌==◌, nat_le};
ghost use Rattle.std.specs.List.{prefix_len};
ghost use Rattle.std.specs.Bool.{then_some};
ghost use Rattle.std.specs.Option.{option_map};
ghost use Rattle.std.specs.Result.{result_ok};
ghost use Rattle.std.specs.Iterator.{YieldsFirstRef, item_count};
ghost use Rattle.std.proofs.Common.{lit<, rules};
ghost use Rattle.std.specs.declared.num.TryFromIntError.{TryFromIntError};
ghost use Rattle.script.specs.Words.{is_digit, word_of, first_word, word_length};
ghost use Rattle.script.specs.Numerals.{largest_in, numeral, ReadsNumber};
ghost use Rattle.script.specs.Feeds.{in_line, first_line, after_line, lines_of, lines_left, Splits};
ghost use Rattle.script.specs.Requests.{field_of, after_field, and_then, at_line_end, number_if, after_if, instruction_of, position_of, remains_in, cut_of, kind_for, request_of, request_in};
ghost use Rattle.script.specs.LineLaw.{ReadsLine};

mod remains;

use instruction::{Field, Instruction, Kind};
use refusals::Refusal;
pub use remains::Remains;
use std::num::TryFromIntError;

/// The most remains that a line may give.
pub const MOST_REMAINS: usize = 8;

/// A part of a line.
#[derive(Clone, Copy, Debug, PartialEq, Eq)]
pub enum Token<'a> {
    /// One of A to Z.
    Letter(&'a u8),
    /// As many digits as follow one another.
    Digits(&'a [u8]),
    /// One space.
    Space,
    /// Any other byte.
    Other,
    /// No byte is left.
    End,
}

// A type of a field's number. An `impl` says only what the largest value is.
trait Width: TryFrom<u64, Error = TryFromIntError> {
    // The largest value.
    ghost largest: { ℕ };

    // The number that a value is.
    ghost number: { Self → ℕ };

    // It fits a `u64`.
    ghost narrow: { largest < 2 ^ 64 };

    // A number converts exactly where it is no larger.
    ghost holds: { (n : ℕ) (r : Result Self TryFromIntError) → Self.try_from_gives n r
        → option_map number (result_ok r) ≡ then_some (nat_le n largest) n };
}

impl Width for u8 {
    ghost largest = { largest_in 1 };

    ghost number = { λ n. n };

    ghost narrow = { lit< tt };

    ghost holds = { Prim.search rules };
}

impl Width for u16 {
    ghost largest = { largest_in 2 };

    ghost number = { λ n. n };

    ghost narrow = { lit< tt };

    ghost holds = { Prim.search rules };
}

impl Width for u32 {
    ghost largest = { largest_in 4 };

    ghost number = { λ n. n };

    ghost narrow = { lit< tt };

    ghost holds = { Prim.search rules };
}

impl Width for u64 {
    ghost largest = { largest_in 8 };

    ghost number = { λ n. n };

    ghost narrow = { lit< tt };

    ghost holds = { Prim.search rules };
}

/// The tokens of a line that are left.
#[derive(Drop)]
pub struct Tokens<'a> {
    rest: &'a [u8],
}

impl<'a> Tokens<'a> {
    /// All tokens of a line.
    pub fn new(line: &'a [u8]) -> Tokens<'a>
        ensures { result.rest.now ≡ line.now }
    {
        Tokens { rest: line }
    }

    /// Takes the next token.
    pub fn next_token(&mut self) -> Token<'a>
        ensures token { word_of result ≡ first_word self.old.rest.now }
        ensures left { self.new.rest.now ≡ drop (word_length self.old.rest.now) self.old.rest.now }
    {
        let [first, after @ ..] = self.rest else {
            return Token::End;
        };
        let (token, after) = match *first {
            b'A'..=b'Z' => (Token::Letter(first), after),
            b'0'..=b'9' => {
                let (digits, after) = self.rest.split_at(digit_count(self.rest));
                (Token::Digits(digits), after)
            }
            b' ' => (Token::Space, after),
            _ => (Token::Other, after),
        };
        self.rest = after;
        token
    }

    // Takes a space and a number that fits the type. After a `None` the line is refused, so no
    // clause says what is left.
    fn field<T: Width>(&mut self) -> Option<T>
        ensures value { option_map T.number result ≡ field_of T.largest self.old.rest.now }
        ensures left { is_some result ≡ true → self.new.rest.now ≡ after_field self.old.rest.now }
    {
        let Token::Space = self.next_token() else {
            return None;
        };
        let Token::Digits(digits) = self.next_token() else {
            return None;
        };
        T::try_from(number(digits, u64::MAX)?).ok()
    }

    // Takes a field if it is used, and gives 0 if not.
    fn field_if<T: Width>(&mut self, used: bool) -> Option<T>
        ensures value { option_map T.number result ≡ number_if used T.largest self.old.rest.now }
        ensures left { is_some result ≡ true → self.new.rest.now ≡ after_if used self.old.rest.now }
    {
        if used {
            self.field()
        } else {
            T::try_from(0).ok()
        }
    }
}

// How many digits a text begins with.
fn digit_count(s: &[u8]) -> usize
    ensures value { result ≡ prefix_len is_digit s.now }
    ensures within { result ≤ length s.now }
{
    s.iter().take_while(|b| b.is_ascii_digit()).count()
}

/// The decimal number of at most `most` that the text writes, with no leading zero; `None` where it
/// writes none.
pub fn number(digits: &[u8], most: u64) -> Option<u64>
    ensures value { result ≡ numeral most digits.now }
    ensures bound { IfSome result (λ n. n ≤ most) }
    ensures exact { ReadsNumber most digits.now result }
{
    let ([b'0'] | [b'1'..=b'9', ..]) = digits else {
        return None;
    };
    // It stops at the first byte that decides. `parse` needs a text that is known to be UTF-8, so
    // all of it would be gone over first.
    let mut n = 0u64;
    for d in digits {
        if !d.is_ascii_digit() {
            return None;
        }
        let digit = u64::from(*d - b'0');
        if n > most / 10 || digit > most - n * 10 {
            return None;
        }
        n = n * 10 + digit;
    }
    Some(n)
}

/// The lines of a script that are left. A line feed ends each, and may be missing after the last.
#[derive(Drop)]
pub struct Lines<'a> {
    rest: &'a [u8],
}

impl<'a> Lines<'a> {
    /// All lines of a script.
    pub fn new(script: &'a [u8]) -> Lines<'a>
        ensures { result.rest.now ≡ script.now }
    {
        Lines { rest: script }
    }

    /// Takes the next line, without its line feed: what `next` gives, under clauses that speak of
    /// the bytes.
    pub fn next_line(&mut self) -> Option<&'a [u8]>
        ensures line { MatchOption result (self.old.rest.now ≡ [])
            (λ l. (0 < length self.old.rest.now) × (l.now ≡ first_line self.old.rest.now)) }
        ensures left { self.new.rest.now ≡ after_line self.old.rest.now }
        ensures shorter { is_some result ≡ true
            → length self.new.rest.now < length self.old.rest.now }
        ensures lines { MatchOption result (lines_of self.old.rest.now ≡ [])
            (λ l. lines_of self.old.rest.now ≡ l.now ∷ lines_of self.new.rest.now) }
        ensures whole { Splits self.old.rest.now (lines_of self.old.rest.now) }
    {
        if self.rest.is_empty() {
            return None;
        }
        let (line, more) = self.rest.split_at(line_length(self.rest));
        self.rest = more.get(1..).unwrap_or(more);
        Some(line)
    }
}

impl<'a> Iterator for Lines<'a> {
    type Item = &'a [u8];

    ghost next_gives = { YieldsFirstRef lines_left };

    ghost remaining = { item_count lines_left };

    fn next(&mut self) -> Option<&'a [u8]> {
        self.next_line()
    }
}

// How many bytes stand before the first line feed, or in all where there is none.
fn line_length(s: &[u8]) -> usize
    ensures value { result ≡ prefix_len in_line s.now }
    ensures within { result ≤ length s.now }
{
    s.iter().take_while(|b| **b != b'\n').count()
}

/// What a line asks for.
#[derive(Clone, Copy, Debug, PartialEq, Eq)]
pub enum Request {
    /// I, D, T, E, L, S or F: carry out an instruction.
    Instruct(Instruction),
    /// Q: the free and blocked amounts of an account in the register.
    Register(Position),
    /// K: the free and blocked amounts of an account in the cash book.
    Cash(Position),
    /// C: cut the power, and open the device again.
    Cut(Cut),
}

/// A place in a book.
#[derive(Clone, Copy, Debug, PartialEq, Eq)]
pub struct Position {
    /// An account, which the book may not have.
    pub account: u16,
    /// An item of the register, or a currency of the cash book.
    pub item: u16,
}

/// A cut of the power: what the restart after it is given.
#[derive(Clone, Copy, Debug, PartialEq, Eq)]
pub struct Cut {
    /// The number of calls that the device then has left.
    pub calls_left: u32,
    /// What becomes of the blocks that are loose.
    pub remains: Remains,
}

/// Reads a line.
///
/// # Errors
///
/// `UnlistedLine` (71) where the line is in none of the listed forms, or a number is too large for
/// its field.
pub fn read_line(line: &[u8]) -> Result<Request, Refusal>
    ensures value { result ≡ request_in line.now }
    ensures exact { ReadsLine line.now result }
{
    read_request(line).ok_or(Refusal::UnlistedLine)
}

fn read_request(line: &[u8]) -> Option<Request>
    ensures { result ≡ request_of line.now }
{
    let mut tokens = Tokens::new(line);
    let Token::Letter(letter) = tokens.next_token() else {
        return None;
    };
    let request = match *letter as char {
        'Q' => Request::Register(read_position(&mut tokens)?),
        'K' => Request::Cash(read_position(&mut tokens)?),
        'C' => Request::Cut(read_cut(&mut tokens)?),
        letter => Request::Instruct(read_instruction(kind_of(letter)?, &mut tokens)?),
    };
    tokens.rest.is_empty().then_some(request)
}

// The kind of a letter.
fn kind_of(letter: char) -> Option<Kind>
    ensures { result ≡ kind_for letter }
{
    match letter {
        'I' => Some(Kind::Issue),
        'D' => Some(Kind::PayIn),
        'T' => Some(Kind::Enter),
        'E' => Some(Kind::Earmark),
        'L' => Some(Kind::Fund),
        'S' => Some(Kind::Settle),
        'F' => Some(Kind::Free),
        _ => None,
    }
}

// Reads the fields that the kind uses. That the line ends after them is left to the caller, here
// and below.
fn read_instruction(kind: Kind, tokens: &mut Tokens) -> Option<Instruction>
    ensures { instruction_of kind tokens.old.rest.now
        ≡ and_then result (at_line_end tokens.new.rest.now) }
{
    Some(Instruction {
        kind: kind.into(),
        account: tokens.field_if(kind.uses(Field::Account))?,
        counterparty: tokens.field_if(kind.uses(Field::Counterparty))?,
        item: tokens.field_if(kind.uses(Field::Item))?,
        currency: tokens.field_if(kind.uses(Field::Currency))?,
        trade: tokens.field_if(kind.uses(Field::Trade))?,
        quantity: tokens.field_if(kind.uses(Field::Quantity))?,
        amount: tokens.field_if(kind.uses(Field::Amount))?,
    })
}

fn read_position(tokens: &mut Tokens) -> Option<Position>
    ensures { position_of tokens.old.rest.now ≡ and_then result (at_line_end tokens.new.rest.now) }
{
    Some(Position {
        account: tokens.field()?,
        item: tokens.field()?,
    })
}

fn read_cut(tokens: &mut Tokens) -> Option<Cut>
    ensures { cut_of tokens.old.rest.now ≡ and_then result (at_line_end tokens.new.rest.now) }
{
    Some(Cut {
        calls_left: tokens.field()?,
        remains: read_remains(tokens)?,
    })
}

// All that is left of the line, which may be nothing.
fn read_remains(tokens: &mut Tokens) -> Option<Remains>
    ensures { remains_in MOST_REMAINS tokens.old.rest.now
        ≡ and_then result (at_line_end tokens.new.rest.now) }
{
    let mut remains = Remains::new();
    while !tokens.rest.is_empty() {
        remains.push(tokens.field()?)?;
    }
    Some(remains)
}
