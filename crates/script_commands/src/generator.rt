//! The script that a number generates: six bricks in two sets, four sessions, forty rounds of calls and losses.
ghost use Rattle.std.specs.Prelude.{◌<◌, ◌≤◌};

use std::alloc::{AllocError, Global};

/// Where the numbers come from by which a script is generated.
pub trait Draws {
    /// The next number.
    fn draw(&mut self) -> u64;
}

// The text so far, and where its numbers come from.
#[derive(Drop)]
struct Writer<D> {
    text: Vec<u8>,
    draws: D,
}

const CLIENTS: u8 = 6;

const SESSIONS: u8 = 4;

const ROUNDS: u32 = 40;

impl<D: Draws> Writer<D> {
    // Draws a number below a bound.
    fn draw(&mut self, bound: u64) -> u64
        requires { 1 ≤ bound }
        ensures { result < bound }
    {
        (self.draws.draw() >> 33) % bound
    }

    fn put(&mut self, words: &[u8]) -> Result<(), AllocError> {
        self.text.extend_from_slice(words)?;
        Ok(())
    }

    fn digit(&mut self, digit: u8) -> Result<(), AllocError>
        requires { digit ≤ 9 }
    {
        self.text.push(b'0' + digit)?;
        Ok(())
    }

    fn number(&mut self, alloc: Global, number: u64) -> Result<(), AllocError> {
        let digits = number.to_string(alloc)?;
        self.put(digits.as_bytes())
    }

    fn hex(&mut self, byte: u8) -> Result<(), AllocError> {
        let digits = b"0123456789abcdef";
        self.text.push(digits[byte as usize / 16])?;
        self.text.push(digits[byte as usize % 16])?;
        Ok(())
    }

    // A line of some words, a digit, and more words.
    fn line(&mut self, before: &[u8], digit: u8, after: &[u8]) -> Result<(), AllocError>
        requires { digit ≤ 9 }
    {
        self.put(before)?;
        self.digit(digit)?;
        self.put(after)?;
        self.put(b"\n")
    }

    fn client(&mut self, number: u8) -> Result<(), AllocError>
        requires { number ≤ 9 }
    {
        self.line(b"volume v-client-", number, b"")?;
        self.put(b"type protocol/client\n")?;
        self.line(b"option remote-host h", number, b"")?;
        self.put(b"option remote-subvolume /b\nend-volume\n")
    }

    fn set(&mut self, number: u8) -> Result<(), AllocError>
        requires { number ≤ 2 }
    {
        self.line(b"volume v-replicate-", number, b"")?;
        self.put(b"type cluster/replicate\nsubvolumes")?;
        for client in 3 * number..3 * number + 3 {
            self.put(b" v-client-")?;
            self.digit(client)?;
        }
        self.put(b"\nend-volume\n")
    }

    // The bricks, the volfile, and its start.
    fn prologue(&mut self) -> Result<(), AllocError> {
        for brick in 0..CLIENTS {
            self.put(b"brick b")?;
            self.digit(brick)?;
            self.line(b" h", brick, b" /b")?;
        }
        self.put(b"volfile g\n")?;
        for client in 0..CLIENTS {
            self.client(client)?;
        }
        self.set(0)?;
        self.set(1)?;
        self.put(b"volume v-dht\ntype cluster/distribute\n")?;
        self.put(b"subvolumes v-replicate-0 v-replicate-1\nend-volume\n")?;
        self.put(b"end-volfile\nstart g\n")
    }

    // Each session makes its directory and a file in it.
    fn first_phase(&mut self) -> Result<(), AllocError> {
        self.put(b"phase\n")?;
        for session in 0..SESSIONS {
            self.call_of(session)?;
            self.line(b"mkdir /d", session, b" 755")?;
            self.call_of(session)?;
            self.line(b"create 1 /d", session, b"/f 644")?;
        }
        Ok(())
    }

    fn call_of(&mut self, session: u8) -> Result<(), AllocError>
        requires { session ≤ 9 }
    {
        self.put(b"do s")?;
        self.digit(session)?;
        self.put(b" ")
    }

    fn numbered(&mut self, alloc: Global, word: &[u8], bound: u64) -> Result<(), AllocError>
        requires { 1 ≤ bound }
    {
        self.put(word)?;
        let number = self.draw(bound);
        self.number(alloc, number)?;
        self.put(b"\n")
    }

    fn write(&mut self, alloc: Global) -> Result<(), AllocError> {
        self.put(b"write 1 r:")?;
        let length = 1 + self.draw(5000);
        self.number(alloc, length)?;
        self.put(b":")?;
        let byte = self.draw(256) as u8;
        self.hex(byte)?;
        self.put(b"\n")
    }

    fn call(&mut self, alloc: Global, session: u8) -> Result<(), AllocError>
        requires { session ≤ 9 }
    {
        self.call_of(session)?;
        match self.draw(5) {
            0 => self.numbered(alloc, b"seek 1 ", 60000),
            1 => self.write(alloc),
            2 => self.numbered(alloc, b"read 1 ", 65536),
            3 => {
                let at = self.draw(SESSIONS as u64) as u8;
                self.line(b"stat /d", at, b"/f")
            }
            _ => {
                let at = self.draw(SESSIONS as u64) as u8;
                self.line(b"list /d", at, b"")
            }
        }
    }

    // A round: a brick may go down, each session makes four calls, and in a phase of its own the brick comes back; each
    // tenth round heals.
    fn round(&mut self, alloc: Global, number: u32) -> Result<(), AllocError> {
        self.put(b"phase\n")?;
        let brick = self.draw(8) as u8;
        if brick < CLIENTS {
            self.line(b"control down b", brick, b" 0")?;
        }
        for session in 0..SESSIONS {
            for _ in 0..4 {
                self.call(alloc, session)?;
            }
        }
        self.put(b"phase\n")?;
        if brick < CLIENTS {
            self.line(b"control up b", brick, b"")?;
        }
        if number % 10 == 0 {
            self.put(b"control heal\n")?;
        }
        Ok(())
    }

    fn put_script(&mut self, alloc: Global) -> Result<(), AllocError> {
        self.prologue()?;
        self.first_phase()?;
        for round in 1..ROUNDS + 1 {
            self.round(alloc, round)?;
        }
        Ok(())
    }
}

/// The text of the script that these numbers generate.
///
/// # Errors
/// Out of memory.
pub fn generated<D: Draws + Drop>(alloc: Global, draws: D) -> Result<Vec<u8>, AllocError> {
    let mut writer = Writer {
        text: Vec::new(alloc),
        draws,
    };
    let done = writer.put_script(alloc);
    let Writer { text, draws } = writer;
    drop(draws);
    done.and(Ok(text))
}
