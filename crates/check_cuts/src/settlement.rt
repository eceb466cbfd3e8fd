// A settlement in eight instructions, of which the last three are cut. What stands after each of
// them was worked out by hand from the rules.
use book::Holding;
use depository::{Fact, Question, Reply};
use instruction::{Instruction, Kind};
use rulebook::State;

const SELLER: u16 = 1;

const BUYER: u16 = 2;

pub(crate) const TRADE: u32 = 7;

fn issue(item: u16, quantity: u64) -> Instruction {
    Instruction {
        account: SELLER,
        item,
        quantity,
        ..Instruction::of_kind(Kind::Issue)
    }
}

pub(crate) fn pay_in(amount: u64) -> Instruction {
    Instruction {
        account: BUYER,
        amount,
        ..Instruction::of_kind(Kind::PayIn)
    }
}

fn enter(quantity: u64, amount: u64) -> Instruction {
    Instruction {
        account: SELLER,
        counterparty: BUYER,
        trade: TRADE,
        quantity,
        amount,
        ..Instruction::of_kind(Kind::Enter)
    }
}

// The instructions before the cut, which all stand.
pub(crate) fn first_five(quantity: u64) -> [Instruction; 5] {
    [
        issue(0, quantity),
        pay_in(8_000),
        enter(quantity, 5_000),
        Instruction::on_trade(Kind::Earmark, TRADE),
        Instruction::on_trade(Kind::Fund, TRADE),
    ]
}

// The instructions that are cut.
pub(crate) fn last_three(quantity: u64) -> [Instruction; 3] {
    [
        Instruction::on_trade(Kind::Settle, TRADE),
        issue(1, quantity),
        pay_in(600),
    ]
}

// A question, and the reply to it if none, one, two or all of the last three instructions stand.
#[derive(Clone, Copy)]
pub(crate) struct Row {
    /// What is asked.
    pub question: Question,
    replies: [Reply; 4],
}

impl Row {
    fn new(question: Question, replies: [Reply; 4]) -> Row {
        Row { question, replies }
    }

    // The reply if this many of the last three stand.
    pub(crate) fn reply(&self, standing: u8) -> Reply {
        let [none, one, two, all] = self.replies;
        match standing {
            0 => none,
            1 => one,
            2 => two,
            _ => all,
        }
    }
}

fn securities(account: u16, item: u16, replies: [Reply; 4]) -> Row {
    Row::new(Question::Securities { account, item }, replies)
}

fn money(account: u16, replies: [Reply; 4]) -> Row {
    let currency = 0;
    Row::new(Question::Money { account, currency }, replies)
}

fn amounts(free: u64, blocked: u64) -> Reply {
    Reply::ToAsk(Ok(Fact::Holding(Holding { free, blocked })))
}

fn trade_state(state: State) -> Reply {
    Reply::ToAsk(Ok(Fact::State(state)))
}

// What each question is to be answered, worked out by hand.
pub(crate) fn rows(quantity: u64) -> [Row; 8] {
    let nothing = amounts(0, 0);
    let lot = amounts(quantity, 0);
    let earmarked = amounts(0, quantity);
    let price = amounts(5_000, 0);
    let rest = amounts(3_000, 0);
    let funded = trade_state(State::Funded);
    let settled = trade_state(State::Settled);
    let entries = [5, 6, 7, 8].map(|count| Reply::ToAsk(Ok(Fact::Entries(count))));
    [
        securities(SELLER, 0, [earmarked, nothing, nothing, nothing]),
        securities(BUYER, 0, [nothing, lot, lot, lot]),
        securities(SELLER, 1, [nothing, nothing, lot, lot]),
        securities(BUYER, 1, [nothing; 4]),
        money(SELLER, [nothing, price, price, price]),
        money(
            BUYER,
            [amounts(3_000, 5_000), rest, rest, amounts(3_600, 0)],
        ),
        Row::new(
            Question::TradeState(TRADE),
            [funded, settled, settled, settled],
        ),
        Row::new(Question::Entries, entries),
    ]
}
