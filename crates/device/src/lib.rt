//! A block device as an interface.
//!
//! [`Device`] says what a read, a write, a sync and the question for the size answer and change,
//! and [`PoweredDevice`] what a restart leaves. Each promise is a contract of the trait (by `Read`,
//! `Write` and `Sync` in `specs/Calls`, and by four clauses of `restart`), so code over any device
//! is proved once. What only one kind of device does is said by that kind, in `makes`.
//!
//! A device over another device needs only this crate and `refusals`: it states its own `medium` in
//! terms of the other's, and [`admit`] makes the checks that a read and a write share.
//! docs/DEVICES.md says all this in words.
#![tactic(auto)]

ghost use Rattle.std.specs.Prelude.{◌≡◌, ℕ, ◌^◌, ◌<◌, min, false, length};
ghost use Rattle.device.specs.Medium.{Medium, IsBounded};
ghost use Rattle.device.specs.Calls.{Read, Write, Sync};
ghost use Rattle.device.specs.Traces.{DeviceCall, reading, writing, syncing, restarting};

mod admission;

pub use admission::admit;
use refusals::Fault;

/// The number of bytes in a block.
pub const BLOCK_SIZE: usize = 256;

/// The largest number of blocks that a device may have.
pub const MOST_BLOCKS: usize = 65535;

/// The largest number of calls that a device may have left.
pub const MOST_CALLS: u32 = 4294967295;

/// A fixed number of blocks, which are read, written and synced one call at a time while calls are
/// left.
///
/// A block holds [`BLOCK_SIZE`] bytes or is unreadable. It is loose if it was written and not yet
/// synced. A call that is accepted spends one of the calls left, and so does a read that finds its
/// block unreadable; no other refusal does.
pub trait Device {
    /// What a device means: its number of blocks, what each holds, whether each is loose, and the
    /// calls left.
    ghost medium: { Self → Medium };

    /// What the kind says exactly of a call: the device, the call, and the device after it. The
    /// clauses below leave open whether a written block is loose and what some refusals leave, and
    /// a kind may say that here.
    ghost makes: { Self → DeviceCall → Self → Type 0 };

    /// The number of blocks, 0 to [`MOST_BLOCKS`]. It never changes, and asking for it spends no
    /// call.
    fn size(&self) -> u32
        ensures { result ≡ (medium self.now).size };

    /// Fills the buffer with what a block holds. A refusal leaves the buffer as it was.
    ///
    /// # Errors
    ///
    /// In this order: 11 if there is no such block, 12 if the buffer has another length than
    /// [`BLOCK_SIZE`], 13 if no calls are left, 14 if the block is unreadable. Each names the
    /// block.
    fn read(&mut self, block: u32, buffer: &mut [u8]) -> Result<(), Fault>
        ensures call { Read (medium self.old) (medium self.new) block buffer.old buffer.new result }
        ensures kind { makes self.old (reading block (length buffer.old)) self.new };

    /// Makes a block hold the bytes. That block alone may become loose.
    ///
    /// # Errors
    ///
    /// In this order: 11 if there is no such block, 12 if there are not [`BLOCK_SIZE`] bytes, 13
    /// if no calls are left. Each names the block. After a 13 the block may hold anything or be
    /// unreadable, and may be loose.
    fn write(&mut self, block: u32, bytes: &[u8]) -> Result<(), Fault>
        ensures call { Write (medium self.old) (medium self.new) block bytes.now result }
        ensures kind { makes self.old (writing block bytes.now) self.new };

    /// Leaves no block loose, and what each block holds as it was.
    ///
    /// # Errors
    ///
    /// 13 if no calls are left, which names no block. It may leave fewer blocks loose.
    fn sync(&mut self) -> Result<(), Fault>
        ensures call { Sync (medium self.old) (medium self.new) result }
        ensures kind { makes self.old syncing self.new };

    /// Every device keeps the limits above, and past its last block nothing is held or loose.
    ghost bounds: { (d : Self) → IsBounded (medium d) };
}

/// A device that can lose its power and be restarted.
pub trait PoweredDevice: Device {
    /// The largest number of calls that a restart of this kind of device gives.
    ghost most_calls: { ℕ };

    /// Restarts the device after a loss of power. It never refuses.
    ///
    /// Only loose blocks depend on `remains`. What a loose block holds afterwards is for the kind
    /// to say, by `makes`: its old bytes, its new ones, any other bytes, or nothing that can be
    /// read.
    fn restart(&mut self, calls_left: u32, remains: &[u8])
        // as many blocks as before, and each that was not loose holds what it held
        ensures blocks { let m = Self.Device.medium self.old in
            let m' = Self.Device.medium self.new in
            (m'.size ≡ m.size) × ((k : ℕ) → m.loose k ≡ false → m'.holds k ≡ m.holds k) }

        // no block is loose
        ensures loose_set { (k : ℕ) → (Self.Device.medium self.new).loose k ≡ false }

        // the number asked for, or the kind's largest if that is smaller
        ensures calls_left { (Self.Device.medium self.new).calls_left ≡ min calls_left most_calls }
        ensures kind { Self.makes self.old (restarting calls_left remains.now) self.new };

    /// That number fits a device's count of calls.
    ghost most_calls_fit: { most_calls < 2 ^ 32 };
}
