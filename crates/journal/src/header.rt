// The header of a journal, as bytes and as a value.
ghost use Rattle.std.specs.Prelude.{◌≡◌};
ghost use Rattle.journal.specs.declared.TheConstants.{MOST_PAIRS};
ghost use Rattle.journal.specs.Blocks.{header_bytes, header_in};
ghost use Rattle.journal.specs.Places.{HeaderPlaces};
ghost use Rattle.journal.specs.Decoding.{ReadsHeader};

use crate::MOST_PAIRS;
use crate::zeros::all_zero;
use device::BLOCK_SIZE;
use little_endian::LittleEndian;
use refusals::Refusal;

/// What the header of a journal says.
#[derive(Clone, Copy, Debug, PartialEq, Eq)]
pub struct Header {
    /// The kind of the register, 0 to 255. It is a byte and no enum, since anyone may write a
    /// book of a new kind.
    pub register: u8,
    /// The kind of the cash book, 0 to 255.
    pub cash: u8,
    /// How many pairs of a record and a mark the journal has, 1 to `MOST_PAIRS` where it stands
    /// on a device.
    pub pairs: u32,
}

impl Header {
    /// The header as bytes: the edition, which is 1, the number of books, which is 2, the two
    /// kinds, the number of pairs in four bytes, the lowest first, and zeros.
    pub fn to_block(self) -> [u8; BLOCK_SIZE]
        ensures value { result ≡ header_bytes self }
        ensures places { HeaderPlaces self.register self.cash self.pairs result }
    {
        let pairs: [u8; 4] = self.pairs.to_little_endian();
        let mut block = [0; BLOCK_SIZE];
        block[0] = 1;
        block[1] = 2;
        block[2] = self.register;
        block[3] = self.cash;
        block[4..8].copy_from_slice(&pairs);
        block
    }

    /// The header that a block holds.
    ///
    /// # Errors
    ///
    /// 43: the block has another edition, another number of books, a number of pairs that no
    /// journal can have, or a byte past them that is not 0.
    pub fn from_block(block: &[u8; BLOCK_SIZE]) -> Result<Header, Refusal>
        ensures value { result ≡ header_in block.now }
        ensures exact { ReadsHeader block.now result }

        // the most pairs that a journal can have, as a number
        ensures most { MOST_PAIRS ≡ 32767 }
    {
        let [edition, books, register, cash, n0, n1, n2, n3, rest @ ..] = &block[..] else {
            return Err(Refusal::NotAHeader);
        };
        if *edition != 1 || *books != 2 {
            return Err(Refusal::NotAHeader);
        }
        let pairs = u32::from_little_endian(&[*n0, *n1, *n2, *n3]);
        if pairs < 1 || pairs > MOST_PAIRS {
            return Err(Refusal::NotAHeader);
        }
        if !all_zero(rest) {
            return Err(Refusal::NotAHeader);
        }
        Ok(Header {
            register: *register,
            cash: *cash,
            pairs,
        })
    }
}
