//! Code that sessions share.

ghost use Rattle.std.specs.Prelude.{◌≡◌, ◌<◌, Some, length, slice_get};
ghost use Rattle.std.specs.Arc.{arc_value};

use std::alloc::Global;
use std::marker::Model;
use std::sync::Arc;
use td_swap::codes::Codes;
use td_verify::verify::Verified;

/// A version of codes of which one is published after the other.
#[derive(Drop)]
pub struct Listed {
    codes: Arc<Codes, Global>,
    at: usize,
    ghost there: { at < length (arc_value codes).codes },
}

/// Where a code stands.
#[derive(Drop)]
pub enum Source {
    Own(Verified),
    Listed(Listed),
}

/// A verified code: one of its own, or a version. A contract sees its parts.
#[derive(Drop)]
pub struct Kept {
    source: Source,
}

impl Model for Kept {
    ghost use Rattle.td_ir.specs.declared.tables.Parts.{Parts};
    ghost use Rattle.td_session.specs.Kept.{code_in};

    ghost Value = { Parts };

    ghost view = { λ k. code_in k.source };
}

impl Kept {
    /// A code of its own.
    pub fn own(code: Verified) -> Kept
        ensures { result ≡ code }
    {
        Kept {
            source: Source::Own(code),
        }
    }

    /// The version of this number.
    pub fn listed(codes: Arc<Codes, Global>, at: usize) -> Kept
        requires { at < length (arc_value codes).codes }
        ensures { slice_get (arc_value codes).codes at ≡ Some result }
    {
        Kept {
            source: Source::Listed(Listed { codes, at }),
        }
    }

    /// The code.
    pub fn verified(&self) -> &Verified
        ensures { result.now ≡ self.now }
    {
        match &self.source {
            Source::Own(code) => code,
            Source::Listed(listed) => {
                let versions = listed.codes.versions();
                &versions[listed.at].code
            }
        }
    }
}
