// A device and two books, in an engine or apart, and the last slip.
use crate::devices::to_parts;
use crate::engines::to_engine;
use crate::rows::{AnswerRow, CallRow};
use book::Book;
use device::PoweredDevice;
use engine::{Engine, Slip};

// Where the device, the register and the cash book are.
pub(crate) enum Parts<D: PoweredDevice, R: Book, C: Book> {
    InEngine(Engine<D, R, C>),
    Apart(D, R, C),
}

// The state between calls. `finish` ends it, and files the slip that is still owed.
pub(crate) struct Session<D: PoweredDevice, R: Book, C: Book> {
    parts: Parts<D, R, C>,
    slip: Option<Slip>,
}

// Files a slip, if there is one, and answers what it held.
fn file(slip: Option<Slip>) -> AnswerRow {
    match slip {
        Some(slip) => AnswerRow::of_slip(slip.file()),
        None => AnswerRow::misfit(),
    }
}

// Presents a slip, which comes back where the opening was refused.
fn present<D: PoweredDevice, R: Book, C: Book>(
    engine: &Engine<D, R, C>,
    slip: Slip,
) -> (Option<Slip>, AnswerRow) {
    match engine.present(slip) {
        Ok(verdict) => (None, AnswerRow::of_number(verdict.number())),
        Err((refusal, slip)) => (Some(slip), AnswerRow::of_ruling(Err(refusal))),
    }
}

impl<D: PoweredDevice, R: Book, C: Book> Session<D, R, C> {
    pub(crate) fn new(device: D, register: R, cash: C) -> Self {
        Session {
            parts: Parts::Apart(device, register, cash),
            slip: None,
        }
    }

    fn open(self) -> (Self, AnswerRow) {
        let Session { parts, slip } = self;
        match parts {
            Parts::Apart(device, register, cash) => {
                let engine = Engine::open(device, register, cash);
                let answer = AnswerRow::of_answer(engine.opening());
                let parts = Parts::InEngine(engine);
                (Session { parts, slip }, answer)
            }
            parts => (Session { parts, slip }, AnswerRow::misfit()),
        }
    }

    // Files the slip that there was, and answers what it held.
    fn close(self) -> (Self, AnswerRow) {
        let Session { parts, slip } = self;
        match parts {
            Parts::InEngine(engine) => {
                let answer = match slip {
                    Some(old) => file(Some(old)),
                    None => AnswerRow::of_number(0),
                };
                let (device, register, cash, slip) = engine.close();
                let parts = Parts::Apart(device, register, cash);
                let slip = Some(slip);
                (Session { parts, slip }, answer)
            }
            parts => (Session { parts, slip }, AnswerRow::misfit()),
        }
    }

    fn present(self) -> (Self, AnswerRow) {
        let Session { parts, slip } = self;
        match (parts, slip) {
            (Parts::InEngine(engine), Some(slip)) => {
                let (slip, answer) = present(&engine, slip);
                let parts = Parts::InEngine(engine);
                (Session { parts, slip }, answer)
            }
            (parts, slip) => (Session { parts, slip }, AnswerRow::misfit()),
        }
    }

    fn file(self) -> (Self, AnswerRow) {
        let Session { parts, slip } = self;
        let answer = file(slip);
        let slip = None;
        (Session { parts, slip }, answer)
    }

    // Answers a call that moves neither the device nor a slip.
    fn answer(&mut self, call: &CallRow, data: &mut [u8]) -> AnswerRow {
        match &mut self.parts {
            Parts::InEngine(engine) => to_engine(engine, call, data),
            Parts::Apart(device, register, cash) => { to_parts(device, register, cash, call, data) }
        }
    }

    // An open (0), a close (1), the slip presented (2) or filed (3), or another call.
    pub(crate) fn give(mut self, call: &CallRow, data: &mut [u8]) -> (Self, AnswerRow) {
        match call.action {
            0 => self.open(),
            1 => self.close(),
            2 => self.present(),
            3 => self.file(),
            _ => {
                let answer = self.answer(call, data);
                (self, answer)
            }
        }
    }

    // Gives the calls in order, as many as there are rows for their answers.
    pub(crate) fn run(self, calls: &[CallRow], data: &mut [u8], answers: &mut [AnswerRow]) -> Self {
        let mut session = self;
        for (call, row) in calls.iter().zip(answers) {
            let (next, answer) = session.give(call, data);
            session = next;
            *row = answer;
        }
        session
    }

    // Gives back the device, and files the slip.
    pub(crate) fn finish(self) -> (D, R, C) {
        let Session { parts, slip } = self;
        if let Some(slip) = slip {
            let _ = slip.file();
        }
        match parts {
            Parts::Apart(device, register, cash) => (device, register, cash),
            Parts::InEngine(engine) => {
                let (device, register, cash, slip) = engine.close();
                let _ = slip.file();
                (device, register, cash)
            }
        }
    }
}
