//! A page is taken into the list of resident pages.

ghost use Rattle.std.specs.Prelude.{◌<◌, IfSome, option_copied};
ghost use Rattle.pg_object.specs.Enters.{Holds, Takes};

use crate::compare::look;
use cs_blob::Blob;
use cs_policy::Denial;
use pg_digest::Digester;
use pg_io::Pager;
use pg_pages::Pages;

// How the taking of a page ended.
#[derive(Drop)]
pub(crate) enum Taken {
    // A pager call of this page failed.
    Failed(u64),
    // The bytes of the page break the rule on them, and it stays where it was.
    Denied(Denial),
    // The page is the most recent: the page that left for it, and the rule that its bytes break.
    Ready(Option<u64>, Option<Denial>),
}

// Looks at a page, and makes it resident and the most recent. Under guard it is not where its bytes break the rule on
// them.
pub(crate) fn take_page<P: Pager, D: Digester>(
    pages: &mut Pages<P, D>,
    blob: Option<&Blob>,
    page: u64,
    guarded: bool,
) -> Taken
    requires inside { page < pages.old.cache.pager.pages }
    requires holds { IfSome blob (λ blob. Holds pages.old.cache.pager.page_size blob.now page) }
    ensures { Takes D.hash pages.old.cache.pager.page_size (option_copied blob.entry) guarded pages.old page result pages.new }
{
    let noted = match look(pages, blob, page) {
        Ok(noted) => noted,
        Err(fault) => return Taken::Failed(fault.page),
    };
    if guarded {
        if let Some(denial) = noted {
            return Taken::Denied(denial);
        }
    }
    match pages.bring(page) {
        Ok(left) => Taken::Ready(left, noted),
        Err(fault) => Taken::Failed(fault.page),
    }
}
