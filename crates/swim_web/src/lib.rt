//! What a daemon answers, served over HTTP: each page is the answer to one question, and no question changes anything.
#![tactic(auto)]

mod changes;
mod daemons;
mod front_page;
mod guests;
mod hosts;
mod laws;
mod limits;
mod objects;
mod pages;
mod questions;
mod recent;
mod replies;
mod rooms;
mod services;
mod shelves;
mod tables;
mod tellers;
mod turns;

pub use daemons::{Answer, Daemon};
pub use hosts::{run, take_turn};
pub use laws::members_are_told;
pub use pages::{Page, page_asked};
pub use questions::Question;
pub use recent::{Recent, listen};
pub use replies::{Kind, reply};
pub use rooms::Room;
pub use services::Web;
pub use shelves::{Found, Shelf};
pub use tellers::{EventLine, Teller};
pub use turns::advance;
