//! When a whole run issues requests, each a law of the definitions.

ghost use Rattle.conformance.specs.Issuing.{RunsKeepPlaces, RunsKeepFollowed, RunsEndFollowed, RunsKeepRoom};

/// Each request is issued to a live driver, before the device is given up, and again only among the first ones after a start.
pub fn runs_keep_places()
    ensures { RunsKeepPlaces }
{}

/// Right after a start all open requests are issued to the new driver, in rising order, once no post is due.
pub fn runs_keep_followed()
    ensures { RunsKeepFollowed }
{}

/// So it is where the server rests, and where the link has ended.
pub fn runs_end_followed()
    ensures { RunsEndFollowed }
{}

/// Where a request is to be posted to a live driver, its line has room.
pub fn runs_keep_room()
    ensures { RunsKeepRoom }
{}
