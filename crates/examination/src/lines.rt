//! The lines of a script: what each asks for, the calls that this takes, and the answer that the
//! replies to them make.

ghost use Rattle.std.specs.Prelude.{◌≡◌, ◌+◌, ◌<◌, ◌≤◌, [], ◌++◌, IfOk, OnOk, OnErr, map, length, drop, vec_len, vec_capacity};
ghost use Rattle.depository.specs.Orders.{order};
ghost use Rattle.examination.specs.Orders.{cut_orders, orders_of, orders_for, requests_in};
ghost use Rattle.examination.specs.Answers.{line_answer, answers_for};

use crate::answer::LineAnswer;
use depository::{Call, Question, Reply};
use refusals::Refusal;
use script::{Cut, Lines, Request, read_line};
use std::alloc::{AllocError, Global};

// What a line is read as.
pub(crate) type LineRequest = Result<Request, Refusal>;

// What each line of a script asks for.
pub(crate) fn read_requests(heap: Global, script: &[u8]) -> Result<Vec<LineRequest>, AllocError>
    ensures { IfOk result (λ v. v.items ≡ requests_in script.now) }
{
    Lines::new(script).map(|line| read_line(line)).collect(heap)
}

// How many calls a cut takes.
const CUT_CALLS: usize = 3;

// The calls of a cut. They borrow its remains.
fn cut_calls(cut: &Cut) -> [Call<'_>; CUT_CALLS]
    ensures { map order result ≡ cut_orders cut.now }
{
    [
        Call::Close,
        Call::Restart {
            calls_left: cut.calls_left,
            remains: cut.remains.as_slice(),
        },
        Call::Open,
    ]
}

// Adds the calls of a line. Memory runs out only where there is no room for them.
fn add_calls<'a>(calls: &mut Vec<Call<'a>>, request: &'a LineRequest) -> Result<(), AllocError>
    ensures added { OnOk result
        (map order calls.new.items ≡ map order calls.old.items ++ orders_of request.now) }
    ensures room { OnErr result
        (vec_capacity calls.old < vec_len calls.old + length (orders_of request.now)) }
{
    match request {
        Ok(Request::Instruct(x)) => calls.push(Call::Instruct(*x))?,
        Ok(Request::Register(position)) => calls.push(Call::Ask(Question::Securities {
            account: position.account,
            item: position.item,
        }))?,
        Ok(Request::Cash(position)) => calls.push(Call::Ask(Question::Money {
            account: position.account,
            currency: position.item,
        }))?,
        Ok(Request::Cut(cut)) => {
            let [close, restart, open] = cut_calls(cut);
            calls.push(close)?;
            calls.push(restart)?;
            calls.push(open)?;
        }
        Err(_) => {}
    }
    Ok(())
}

// The calls of a whole script: an open, and then those of each line.
pub(crate) fn calls_for<'a>(
    heap: Global,
    requests: &'a [LineRequest],
) -> Result<Vec<Call<'a>>, AllocError>
    ensures { IfOk result (λ v. map order v.items ≡ orders_for requests.now) }
{
    let mut calls = Vec::new(heap);
    calls.push(Call::Open)?;
    for request in requests {
        add_calls(&mut calls, request)?;
    }
    Ok(calls)
}

// How many calls a line takes.
fn call_count(request: &LineRequest) -> usize
    ensures { result ≡ length (orders_of request.now) }
{
    match request {
        Ok(Request::Cut(_)) => CUT_CALLS,
        Ok(_) => 1,
        Err(_) => 0,
    }
}

// The answer to a line, from the replies to its calls and to those after them: the last of its own
// gives it.
fn line_answer(request: &LineRequest, replies: &[Reply]) -> LineAnswer
    ensures { result ≡ line_answer request.now replies.now }
{
    if let Err(refusal) = request {
        return LineAnswer::Refused(*refusal);
    }
    match replies.get(call_count(request) - 1) {
        Some(reply) => (*reply).into(),
        None => LineAnswer::Unasked,
    }
}

// The replies after so many.
fn past(replies: &[Reply], count: usize) -> &[Reply]
    ensures { result.now ≡ drop count replies.now }
{
    replies.get(count..).unwrap_or(&[])
}

// Adds one answer for each line; there is room for them. The first reply is to the open before the
// lines.
pub(crate) fn answers_for(
    requests: &[LineRequest],
    replies: &[Reply],
    answers: &mut Vec<LineAnswer>,
)
    requires room { vec_len answers.old + length requests.now ≤ vec_capacity answers.old }
    requires empty { answers.old.items ≡ [] }
    ensures { answers.new.items ≡ answers_for requests.now (drop 1 replies.now) }
{
    let mut rest = past(replies, 1);
    for request in requests {
        answers.push_reserved(line_answer(request, rest));
        rest = past(rest, call_count(request));
    }
}
