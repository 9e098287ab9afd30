ghost use Rattle.ocm_http.specs.Laws.{FirstOfStream, MessageIsRequest, MoreChangesNothing, OneFrame, RequestIsWhole};
ghost use Rattle.ocm_http.specs.ReadBack.{RequestsAreReadBack, RepliesAreReadBack, StreamOfMessages, FixedAreWritten};

/// Once bytes are a message or a fault, more bytes behind them change nothing: so it doesn't matter in which pieces a
/// stream comes.
pub fn more_bytes_change_nothing()
    ensures { MoreChangesNothing }
{}

/// Bytes are at most one of a message, a fault, nothing yet and the end.
pub fn bytes_are_one_frame()
    ensures { OneFrame }
{}

/// A message that was read is the first of its stream's, and those of what follows it are the rest.
pub fn message_is_first_of_stream()
    ensures { FirstOfStream }
{}

/// What a reader of requests gives is a request.
pub fn message_is_request()
    ensures { MessageIsRequest }
{}

/// A request is whole without the end of input (RFC 9112 section 6.3): its bytes are that request whether the input ends
/// with them or not.
pub fn request_is_whole()
    ensures { RequestIsWhole }
{}

/// A request that was written is read back as the request that it is: its method, its target, the fields that were
/// written and the body. It has to be within the reader's limits.
pub fn written_request_is_read_back()
    ensures { RequestsAreReadBack }
{}

/// A reply that was written is read back as the reply that it is: its status, its fields and the body. It has to be
/// within the reader's limits, and no field that it was given may tell a length.
pub fn written_reply_is_read_back()
    ensures { RepliesAreReadBack }
{}

/// Messages that are read back, written one behind another, are the stream of these messages.
pub fn written_messages_are_a_stream()
    ensures { StreamOfMessages }
{}

/// The fixed replies are written replies, with no field of their own and no body, and close their connection.
pub fn fixed_replies_are_written_replies()
    ensures { FixedAreWritten }
{}
