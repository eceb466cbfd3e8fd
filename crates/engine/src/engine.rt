// What an engine is made of.
ghost use Rattle.std.specs.Prelude.{◌≤◌, ◌<◌, ◌*◌};
ghost use Rattle.journal.specs.declared.TheConstants.{MOST_PAIRS};

use book::Book;
use device::Device;
use instruction::Instruction;
use ledger::Ledger;
use refusals::Fault;

/// What an opening found in the journal.
#[derive(Clone, Copy, Debug, Default, PartialEq, Eq)]
pub struct FoundEntries {
    /// How many entries it found, 0 to `journal::MOST_PAIRS`.
    pub count: u32,
    /// The instruction of the last of them.
    pub last: Option<Instruction>,
}

/// Whether an engine takes instructions, and if not, why.
#[derive(Clone, Copy, Debug, PartialEq, Eq)]
pub enum Mode {
    /// It takes instructions.
    Open,
    /// Power went while this instruction was written. The engine answers questions, and refuses
    /// instructions with 42.
    Down(Instruction),
    /// The opening was refused, by this fault. Books and trades are cleared, and the engine
    /// refuses instructions and questions with 41.
    Refused(Fault),
}

/// An engine: a device with a journal, and the books and trades that the journal's entries lead
/// to.
#[derive(Drop)]
pub struct Engine<D: Device, R: Book, C: Book> {
    pub(crate) device: D,
    pub(crate) ledger: Ledger<R, C>,
    pub(crate) mode: Mode,
    // how many entries the journal has room for, 0 where the opening was refused
    pub(crate) pairs: u32,
    // what the opening found
    pub(crate) found: FoundEntries,
    // how many entries stand
    pub(crate) entry_count: u32,
    ghost few: { pairs ≤ MOST_PAIRS },
    ghost within: { entry_count ≤ pairs },
    ghost fits: { 0 < pairs → 2 * pairs < (D.medium device).size },
}
