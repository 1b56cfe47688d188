// Answers whose payloads are still to be read.
ghost use Rattle.std.specs.Prelude.{◌≡◌, true, false};
ghost use Rattle.ld_msg.specs.declared.msg.Body.TheVariants.{DigestPage, ReadPage};
ghost use Rattle.ld_op.specs.Drafts.{seen_said};
ghost use Rattle.ld_op.specs.Filled.{is_page, is_placed};

use crate::pointers::Pointers;
use ld_lsn::Lsn;
use ld_msg::Body;
use std::marker::Model;

/// What a draft says.
#[derive(Drop)]
pub enum Said {
    /// This, which is no page and has no payload.
    Whole(Body),
    /// A page of a digest.
    Digest {
        from: Lsn,
        upto: Lsn,
        trim: Lsn,
        lng: u32,
        entries: Pointers,
    },
    /// A page for a reader.
    Page {
        round: u32,
        from: Lsn,
        upto: Lsn,
        clean: bool,
        entries: Pointers,
    },
}

/// What a message says, with the places of payloads in place of their bytes.
#[derive(Drop)]
pub struct DraftBody {
    said: Said,
}

impl Model for DraftBody {
    ghost use Rattle.std.specs.Prelude.{◌≡◌, true};
    ghost use Rattle.ld_msg.specs.declared.msg.Body.{Body as Content};
    ghost use Rattle.ld_op.specs.Drafts.{seen_body};
    ghost use Rattle.ld_op.specs.Filled.{is_placed};

    ghost Value = { Content };

    ghost view = { seen_body };

    ghost invariant = { λ body. is_placed body.said ≡ true };
}

impl DraftBody {
    /// This, which is no page and has no payload.
    pub fn whole(body: Body) -> DraftBody
        requires { is_page body ≡ false }
        ensures { result ≡ body }
    {
        DraftBody {
            said: Said::Whole(body),
        }
    }

    /// A page of a digest.
    pub fn digest(from: Lsn, upto: Lsn, trim: Lsn, lng: u32, entries: Pointers) -> DraftBody
        ensures { result ≡ DigestPage from upto trim lng entries }
    {
        DraftBody {
            said: Said::Digest {
                from,
                upto,
                trim,
                lng,
                entries,
            },
        }
    }

    /// A page for a reader.
    pub fn page(round: u32, from: Lsn, upto: Lsn, clean: bool, entries: Pointers) -> DraftBody
        ensures { result ≡ ReadPage round from upto clean entries }
    {
        DraftBody {
            said: Said::Page {
                round,
                from,
                upto,
                clean,
                entries,
            },
        }
    }

    /// What it says.
    pub fn said(&self) -> &Said
        ensures { seen_said result.now ≡ self.now }
    {
        &self.said
    }

    /// What it says, given back as it was moved in. What is whole there is no page.
    pub fn into_said(self) -> Said
        ensures said { seen_said result ≡ self }
        ensures placed { is_placed result ≡ true }
    {
        self.said
    }
}
