//! What lies in a machine's memory before its supervisor starts.
ghost use Rattle.std.specs.Prelude.{◌≡◌, length};
ghost use Rattle.pairing.specs.Images.{word_byte, image_byte, image_bytes};

use memory::FRAME_SIZE;

/// Where the supervisor begins.
const SUPERVISOR: usize = 32 * FRAME_SIZE;

/// Where the supervisor's secrets begin.
const SECRETS: usize = 33 * FRAME_SIZE;

/// Where the user's two frames begin.
const USER: usize = 40 * FRAME_SIZE;

/// Where the user's two frames end.
const FREE: usize = 42 * FRAME_SIZE;

/// The programs and the secrets that a machine begins with.
#[derive(Clone, Copy, PartialEq, Eq, Debug)]
pub struct Image<'a> {
    pub supervisor: &'a [u16],
    pub secrets: &'a [u16],
    pub user: &'a [u8],
}

impl<'a> Image<'a> {
    /// The byte at an address.
    pub fn byte(self, address: usize) -> u8
        ensures { result ≡ image_byte self.entry address }
    {
        if address < SUPERVISOR {
            0
        } else if address < SECRETS {
            word_byte(self.supervisor, address - SUPERVISOR)
        } else if address < USER {
            word_byte(self.secrets, address - SECRETS)
        } else if address < FREE {
            self.user.get(address - USER).copied().unwrap_or(0)
        } else {
            0
        }
    }

    /// Fills a buffer with the bytes from an address on.
    pub fn fill(self, first: u16, buffer: &mut [u8])
        ensures { buffer.new ≡ image_bytes self.entry first (length buffer.old) }
    {
        for (i, byte) in buffer.iter_mut().enumerate() {
            *byte = self.byte(first as usize + i);
        }
    }
}

/// A byte of words that lie low byte first, and 0 past their end.
pub fn word_byte(words: &[u16], offset: usize) -> u8
    ensures { result ≡ word_byte words.now offset }
{
    let word = words.get(offset / 2).copied().unwrap_or(0);
    word.to_le_bytes()[offset % 2]
}
