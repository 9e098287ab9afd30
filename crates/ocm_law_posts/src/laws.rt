//! A letter that is posted to a server of this program is delivered: what the sender writes is one message to
//! the receiver, and asks it what the letter says.

ghost use Rattle.ocm_law_posts.specs.Answers.{AnswersAreTold, RepliesAnswer};
ghost use Rattle.ocm_law_posts.specs.Documents.{DocumentsAreFound, DocumentsLeadHome};
ghost use Rattle.ocm_law_posts.specs.Letters.{SentAreCounted};
ghost use Rattle.ocm_law_posts.specs.Names.{AddressesStand, PlainNamesStand};
ghost use Rattle.ocm_law_posts.specs.Posts.{EndPointsAreOurs, LettersAreReadBack, PostsAreDeliveries, PostsAreMessages, PostsGoThere, RoutesAreLetters};

/// The record of a letter has at most 65,536 bytes, the most that a server takes, and is read as that letter.
pub fn letters_are_read_back()
    ensures { LettersAreReadBack }
{}

/// A POST with the record of a letter to where letters of its sort are taken asks what the letter says, whatever
/// its fields are.
pub fn routes_are_letters()
    ensures { RoutesAreLetters }
{}

/// The bytes of a post to a server of this program are one message, with nothing behind it.
pub fn posts_are_messages()
    ensures { PostsAreMessages }
{}

/// A usable document whose endPoint is `http://`, a host and `/ocm` leads to a host, and to the path `/ocm` there.
pub fn end_points_are_ours()
    ensures { EndPointsAreOurs }
{}

/// A letter that is posted to the site of a usable document, whose endPoint is `http://`, a host and `/ocm`, is one
/// message. A server of this program is asked by it what the letter says, and closes the connection behind its reply.
/// The post goes to that host, where the URL Standard takes the host's name as it stands.
pub fn posts_are_deliveries()
    ensures asked { PostsAreDeliveries }
    ensures there { PostsGoThere }
{}

/// Each message of a server tells changes of permissions that are counted from 1, as `letters_may_be_sent` asks.
pub fn messages_are_counted()
    ensures { SentAreCounted }
{}

/// The page of a reply to a letter, as a POST is answered, is one reply to its sender, which is told by it the status
/// and the id that are the answer to the letter. A server is told the time before a letter; where it can't keep that,
/// the page is of the reply to the tick, 503, 507 or 500, and the letter is not asked: such a status settles nothing.
pub fn answers_are_told()
    ensures { AnswersAreTold }
{}

/// What a session allows as the reply to a letter may answer it, so that its page tells the sender the answer.
pub fn replies_may_answer()
    ensures { RepliesAnswer }
{}

/// The URL Standard takes a host's name as it stands where it does not end in a number, or is an IPv4 address in
/// its usual form.
pub fn names_stand_in_urls()
    ensures plain { PlainNamesStand }
    ensures address { AddressesStand }
{}

/// The discovery document of a server is usable and leads to that server, where the URL Standard takes the host's
/// name as it stands.
pub fn documents_lead_home()
    ensures text { DocumentsLeadHome }
    ensures exchange { DocumentsAreFound }
{}
