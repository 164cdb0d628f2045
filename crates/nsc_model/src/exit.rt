// `Exit`: how the program ends, its status, and its text for standard error.
ghost use Rattle.std.specs.Prelude.{◌≡◌};
ghost use Rattle.nsc_model.specs.declared.exit.Exit.TheVariants.{BadConf, NoMemory as Memory};

use crate::fault::CacheFault;
use nsc_base::{Bytes, NoMemory};
use std::alloc::{AllocError, Global};
use std::fmt;
use thiserror::Error;

/// Why a text is no nscd.conf(5). Each fault has the number of its line, from 1.
#[derive(Clone, Copy, Debug, PartialEq, Eq, Error)]
pub enum ConfFault {
    /// The line has a number of words, or a service, that its attribute does not have.
    #[error("configuration line {line}: bad line")]
    BadLine {
        /// The number of the line.
        line: u64,
    },
    /// The value is none of the attribute's.
    #[error("configuration line {line}: bad value")]
    BadValue {
        /// The number of the line.
        line: u64,
    },
    /// The first word is no attribute.
    #[error("configuration line {line}: unknown attribute")]
    UnknownAttribute {
        /// The number of the line.
        line: u64,
    },
}

/// How the program ends.
#[derive(Clone, Copy, Debug, PartialEq, Eq)]
pub enum Exit {
    /// The command was done.
    Ok,
    /// The words are no command.
    Usage,
    /// The input failed.
    ReadFault,
    /// The output failed.
    WriteFault,
    /// The input begins no frame, or ends inside one.
    BadFrame {
        /// The place of the frame's first byte in the input.
        offset: u64,
    },
    /// The configuration is refused.
    BadConf {
        /// Its first line at fault, and why.
        fault: ConfFault,
    },
    /// A source file is there, or may be, and could not be read.
    SourceFault,
    /// A socket failed, or no daemon is at the other end.
    NetFault,
    /// A count that the machine needed stands at its end.
    Spent {
        /// The count.
        count: u64,
    },
    /// Memory was short.
    NoMemory,
    /// A file is announced, or was to be read, that is longer than a file may be.
    TooLong {
        /// The length in bytes: as it is announced, or as far as it is known.
        length: u64,
    },
    /// What a daemon replied is no reply.
    BadReply,
    /// An item of an audited trace breaks a rule.
    AuditNo {
        /// The number of the first such item, from 0.
        item: u64,
    },
}

impl Exit {
    ghost use Rattle.std.specs.Prelude.{◌≡◌, IfOk};
    ghost use Rattle.nsc_model.specs.Exits.{line_of, status_of};

    /// The status with which the program ends: 0 where the command was done.
    pub fn status(&self) -> u8
        ensures { result ≡ status_of self.now }
    {
        match self {
            Exit::Ok => 0,
            Exit::Usage => 2,
            Exit::ReadFault => 3,
            Exit::WriteFault => 4,
            Exit::BadFrame { .. } => 5,
            Exit::BadConf { .. } => 6,
            Exit::SourceFault => 7,
            Exit::NetFault => 8,
            Exit::Spent { .. } => 9,
            Exit::NoMemory => 10,
            Exit::TooLong { .. } => 11,
            Exit::BadReply => 12,
            Exit::AuditNo { .. } => 14,
        }
    }

    /// What is told on standard error: the text of the exit with a newline after it, and nothing where the command was
    /// done. Fails only for want of memory.
    pub fn text(&self, alloc: Global) -> Result<Bytes, NoMemory>
        ensures { IfOk result (λ text. text ≡ line_of self.now) }
    {
        if *self == Exit::Ok {
            return Ok(Bytes::from_vec(Vec::new(alloc)));
        }
        let text = format!(in alloc; "{self}\n")?;
        Ok(Bytes::from_vec(text.into_bytes()))
    }
}

// What is told on standard error, without a newline: nothing where the command was done.
impl fmt::Display for Exit {
    ghost use Rattle.std.specs.Prelude.{Some};
    ghost use Rattle.nsc_model.specs.Exits.{text_of};

    ghost output = { λ exit. Some (text_of exit) };

    fn fmt<W: fmt::Write>(&self, f: &mut fmt::Formatter<W>) -> fmt::Result {
        match self {
            Exit::Ok => write!(f, ""),
            Exit::Usage => write!(f, "nscd: usage"),
            Exit::ReadFault => write!(f, "nscd: input failed"),
            Exit::WriteFault => write!(f, "nscd: output failed"),
            Exit::BadFrame { offset } => write!(f, "nscd: bad frame at {offset}"),
            Exit::BadConf {
                fault: ConfFault::BadLine { line },
            } => write!(f, "nscd: configuration line {line}: bad line"),
            Exit::BadConf {
                fault: ConfFault::BadValue { line },
            } => write!(f, "nscd: configuration line {line}: bad value"),
            Exit::BadConf {
                fault: ConfFault::UnknownAttribute { line },
            } => write!(f, "nscd: configuration line {line}: unknown attribute"),
            Exit::SourceFault => write!(f, "nscd: source file failed"),
            Exit::NetFault => write!(f, "nscd: socket failed"),
            Exit::Spent { .. } => write!(f, "nscd: counter spent"),
            Exit::NoMemory => write!(f, "nscd: no memory"),
            Exit::TooLong { length } => write!(f, "nscd: file of {length} bytes is too long"),
            Exit::BadReply => write!(f, "nscd: bad reply from server"),
            Exit::AuditNo { item } => write!(f, "nscd: audit failed at item {item}"),
        }
    }
}

impl From<AllocError> for Exit {
    ghost from_gives = { λ _ exit. exit ≡ Memory };

    fn from(_e: AllocError) -> Exit {
        Exit::NoMemory
    }
}

impl From<NoMemory> for Exit {
    ghost from_gives = { λ _ exit. exit ≡ Memory };

    fn from(_e: NoMemory) -> Exit {
        Exit::NoMemory
    }
}

impl From<ConfFault> for Exit {
    ghost from_gives = { λ fault exit. exit ≡ BadConf fault };

    fn from(fault: ConfFault) -> Exit {
        Exit::BadConf { fault }
    }
}

impl From<CacheFault> for Exit {
    ghost use Rattle.nsc_model.specs.Exits.{exit_by};

    ghost from_gives = { λ fault exit. exit ≡ exit_by fault };

    fn from(fault: CacheFault) -> Exit {
        match fault {
            CacheFault::NoMemory => Exit::NoMemory,
            CacheFault::Spent { count } => Exit::Spent { count },
        }
    }
}
