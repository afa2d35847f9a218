//! Many requests over a link, and their journal.

ghost use Rattle.std.specs.Prelude.{false, IfOk, ◌≡◌};
ghost use Rattle.{bac_print.specs.has_failed, bac_uses.specs.Requested.AllRequested};

use bac_links::Link;
use bac_print::Checked;
use bac_run::laws::{
    a_journal_is_a_script, a_run_sends_what_it_remarks, a_run_tells_what_the_look_ahead_gives,
};
use bac_run::{RunFault, Setup, run_requests};
use bac_script::TraceEnd;
use bac_tsm::Config;
use std::io::{Read, Write};

/// Makes the requests of a reader's lines over a link, with at most eight open at once, and prints their journal.
pub fn requested<L: Link, R: Read, W: Write>(
    link: &mut L,
    reader: &mut Checked<R>,
    writer: &mut Checked<W>,
) -> Result<TraceEnd, RunFault>
    requires link { L.has_failed link.old ≡ false }
    requires reader { has_failed reader.old ≡ false }
    requires writer { has_failed writer.old ≡ false }
    // Without a fault all requests were made, sent and printed as the definition says.
    ensures all { IfOk result (λ _. AllRequested R.remaining W.contents reader.old reader.new writer.old writer.new
        (L.seen link.old) (L.seen link.new)) }
    // Without a fault the link may be used again.
    ensures link { IfOk result (λ _. L.has_failed link.new ≡ false) }
{
    a_journal_is_a_script::<L, R, W>();
    a_run_sends_what_it_remarks::<L, R, W>();
    a_run_tells_what_the_look_ahead_gives();
    let config = Config {
        timeout: 3000,
        retries: 3,
    };
    let setup = Setup::new(config, 8).unwrap();
    run_requests(setup, link, reader, writer)
}
