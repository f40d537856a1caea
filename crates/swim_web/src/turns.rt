//! A turn of a connection.

ghost use Rattle.std.specs.Prelude.{◌≡◌, box_value};
ghost use Rattle.http_server.specs.Connection.{config_of, history};
ghost use Rattle.http_server.specs.Exchange.{Calls};
ghost use Rattle.http_server.specs.History.{IsServed};
ghost use Rattle.swim_web.specs.Asked.{OnlyLooks};
ghost use Rattle.swim_web.specs.Pages.{is_listed};
ghost use Rattle.swim_web.specs.Replies.{Answers};

use crate::daemons::Daemon;
use crate::services::Web;
use crate::shelves::Shelf;
use http_server::Connection;

/// Answers the requests that a connection has received.
pub fn advance<D: Daemon + Drop, S: Shelf + Drop>(connection: &mut Connection, web: &mut Web<D, S>)
    // What goes out are the responses to the requests that came in, in order,
    ensures served { ∥ IsServed (config_of connection.new) (history connection.new) ∥₁ }

    // each response says what the daemon answered to one question, or was given without one,
    ensures answers { Calls (λ old request response new.
        Answers (S.tells (box_value new.shelf)) (S.opened (box_value old.shelf)) (is_listed old.names.items) old.is_full
        old.recent (record { asked = D.asked (box_value old.daemon); is_late = old.is_late }) request response
        new.recent (record { asked = D.asked (box_value new.daemon); is_late = new.is_late })
        × (new.names ≡ old.names) × (new.is_full ≡ old.is_full))
        web.old web.new (history connection.old).calls (history connection.new).calls }

    // and whatever came in, the daemon was only looked at.
    ensures looks { OnlyLooks (D.asked (box_value web.old.daemon)) (D.asked (box_value web.new.daemon)) }

    // The events are those that were kept, the host has the names that it had, whether all places are taken stays as it
    // was, and so do the limits of the connection.
    ensures keeps { web.new.recent ≡ web.old.recent }
    ensures names { web.new.names ≡ web.old.names }
    ensures full { web.new.is_full ≡ web.old.is_full }
    ensures config { config_of connection.new ≡ config_of connection.old }
{
    connection.advance(web);
}
