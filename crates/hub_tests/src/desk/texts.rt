//! What clients send, and what they are to hear (docs/PROTOCOL.md).

use crate::desk::says::Say;

pub const CONNECT: Say<'static> = Say::Text(b"CONNECT\naccept-version:1.2\n\n\0");

pub const SUBSCRIBE: Say<'static> = Say::Text(
    b"SUBSCRIBE\nid:s\ndestination:/queue/q\nack:client\n\n\0",
);

pub const SEND_X: &[u8] = b"SEND\ndestination:/queue/q\n\nx\0";

pub const SEND_Y: Say<'static> = Say::Text(b"SEND\ndestination:/queue/q\n\ny\0");

pub const ACK: Say<'static> = Say::Text(b"ACK\nid:1\n\n\0");

pub const ACK_AGAIN: Say<'static> = Say::Text(b"ACK\nid:1\nreceipt:r9\n\n\0");

pub const SEND: Say<'static> = Say::Text(b"SEND\ndestination:/queue/a\nreceipt:r1\n\nhi\0");

pub const DISCONNECT: Say<'static> = Say::Text(b"DISCONNECT\nreceipt:r2\n\n\0");

/// An Open and a subscription, in one message.
pub const LISTENER: Say<'static> = Say::Text(
    b"CONNECT\naccept-version:1.2\n\n\0SUBSCRIBE\nid:s\ndestination:/topic/a\n\n\0",
);

/// An Open, two messages to that topic, and a DISCONNECT, in one message.
pub const SPEAKER: &[u8] = b"CONNECT\naccept-version:1.2\n\n\0\
SEND\ndestination:/topic/a\nreceipt:r1\n\nx\0\
SEND\ndestination:/topic/a\nreceipt:r2\n\ny\0\
DISCONNECT\nreceipt:r3\n\n\0";

/// Twenty frames, each with a receipt: more than a window.
pub const TWENTY_LOWER: Say<'static> = Say::Text(
    b"SEND\ndestination:/topic/a\nreceipt:a\n\n\0\
SEND\ndestination:/topic/a\nreceipt:b\n\n\0\
SEND\ndestination:/topic/a\nreceipt:c\n\n\0\
SEND\ndestination:/topic/a\nreceipt:d\n\n\0\
SEND\ndestination:/topic/a\nreceipt:e\n\n\0\
SEND\ndestination:/topic/a\nreceipt:f\n\n\0\
SEND\ndestination:/topic/a\nreceipt:g\n\n\0\
SEND\ndestination:/topic/a\nreceipt:h\n\n\0\
SEND\ndestination:/topic/a\nreceipt:i\n\n\0\
SEND\ndestination:/topic/a\nreceipt:j\n\n\0\
SEND\ndestination:/topic/a\nreceipt:k\n\n\0\
SEND\ndestination:/topic/a\nreceipt:l\n\n\0\
SEND\ndestination:/topic/a\nreceipt:m\n\n\0\
SEND\ndestination:/topic/a\nreceipt:n\n\n\0\
SEND\ndestination:/topic/a\nreceipt:o\n\n\0\
SEND\ndestination:/topic/a\nreceipt:p\n\n\0\
SEND\ndestination:/topic/a\nreceipt:q\n\n\0\
SEND\ndestination:/topic/a\nreceipt:r\n\n\0\
SEND\ndestination:/topic/a\nreceipt:s\n\n\0\
SEND\ndestination:/topic/a\nreceipt:t\n\n\0",
);

/// The same behind an Open.
pub const OPENED_TWENTY: &[u8] = b"CONNECT\naccept-version:1.2\n\n\0\
SEND\ndestination:/topic/a\nreceipt:a\n\n\0\
SEND\ndestination:/topic/a\nreceipt:b\n\n\0\
SEND\ndestination:/topic/a\nreceipt:c\n\n\0\
SEND\ndestination:/topic/a\nreceipt:d\n\n\0\
SEND\ndestination:/topic/a\nreceipt:e\n\n\0\
SEND\ndestination:/topic/a\nreceipt:f\n\n\0\
SEND\ndestination:/topic/a\nreceipt:g\n\n\0\
SEND\ndestination:/topic/a\nreceipt:h\n\n\0\
SEND\ndestination:/topic/a\nreceipt:i\n\n\0\
SEND\ndestination:/topic/a\nreceipt:j\n\n\0\
SEND\ndestination:/topic/a\nreceipt:k\n\n\0\
SEND\ndestination:/topic/a\nreceipt:l\n\n\0\
SEND\ndestination:/topic/a\nreceipt:m\n\n\0\
SEND\ndestination:/topic/a\nreceipt:n\n\n\0\
SEND\ndestination:/topic/a\nreceipt:o\n\n\0\
SEND\ndestination:/topic/a\nreceipt:p\n\n\0\
SEND\ndestination:/topic/a\nreceipt:q\n\n\0\
SEND\ndestination:/topic/a\nreceipt:r\n\n\0\
SEND\ndestination:/topic/a\nreceipt:s\n\n\0\
SEND\ndestination:/topic/a\nreceipt:t\n\n\0";

/// Twenty others.
pub const TWENTY_UPPER: Say<'static> = Say::Text(
    b"SEND\ndestination:/topic/a\nreceipt:A\n\n\0\
SEND\ndestination:/topic/a\nreceipt:B\n\n\0\
SEND\ndestination:/topic/a\nreceipt:C\n\n\0\
SEND\ndestination:/topic/a\nreceipt:D\n\n\0\
SEND\ndestination:/topic/a\nreceipt:E\n\n\0\
SEND\ndestination:/topic/a\nreceipt:F\n\n\0\
SEND\ndestination:/topic/a\nreceipt:G\n\n\0\
SEND\ndestination:/topic/a\nreceipt:H\n\n\0\
SEND\ndestination:/topic/a\nreceipt:I\n\n\0\
SEND\ndestination:/topic/a\nreceipt:J\n\n\0\
SEND\ndestination:/topic/a\nreceipt:K\n\n\0\
SEND\ndestination:/topic/a\nreceipt:L\n\n\0\
SEND\ndestination:/topic/a\nreceipt:M\n\n\0\
SEND\ndestination:/topic/a\nreceipt:N\n\n\0\
SEND\ndestination:/topic/a\nreceipt:O\n\n\0\
SEND\ndestination:/topic/a\nreceipt:P\n\n\0\
SEND\ndestination:/topic/a\nreceipt:Q\n\n\0\
SEND\ndestination:/topic/a\nreceipt:R\n\n\0\
SEND\ndestination:/topic/a\nreceipt:S\n\n\0\
SEND\ndestination:/topic/a\nreceipt:T\n\n\0",
);

/// Any CONNECTED.
pub const CONNECTED: Say<'static> = Say::Front(b"CONNECTED\n");

pub const MESSAGE_X: Say<'static> = Say::Text(
    b"MESSAGE\nsubscription:s\nmessage-id:2.0\ndestination:/queue/q\nack:0\ncontent-length:1\n\nx\0",
);

pub const MESSAGE_Y: Say<'static> = Say::Text(
    b"MESSAGE\nsubscription:s\nmessage-id:3.0\ndestination:/queue/q\nack:1\ncontent-length:1\n\ny\0",
);

pub const TOPIC_X: Say<'static> = Say::Text(
    b"MESSAGE\nsubscription:s\nmessage-id:3.0\ndestination:/topic/a\ncontent-length:1\n\nx\0",
);

pub const TOPIC_Y: Say<'static> = Say::Text(
    b"MESSAGE\nsubscription:s\nmessage-id:4.0\ndestination:/topic/a\ncontent-length:1\n\ny\0",
);

pub const UNKNOWN_ID: Say<'static> = Say::Text(
    b"ERROR\nmessage:E11 unknown acknowledgement id\nreceipt-id:r9\n\n\0",
);

pub const NOT_EXPECTED: Say<'static> = Say::Text(
    b"ERROR\nmessage:E7 frame not expected here\n\n\0",
);

pub const RECEIPT: Say<'static> = Say::Text(b"RECEIPT\nreceipt-id:r1\n\n\0");

pub const SECOND_RECEIPT: Say<'static> = Say::Text(b"RECEIPT\nreceipt-id:r2\n\n\0");

const THIRD_RECEIPT: Say<'static> = Say::Text(b"RECEIPT\nreceipt-id:r3\n\n\0");

/// What the speaker hears.
pub const THREE_RECEIPTS: &[Say<'static>] = &[CONNECTED, RECEIPT, SECOND_RECEIPT, THIRD_RECEIPT];

pub const LOWER_RECEIPTS: &[Say<'static>] = &[
    CONNECTED,
    Say::Text(b"RECEIPT\nreceipt-id:a\n\n\0"),
    Say::Text(b"RECEIPT\nreceipt-id:b\n\n\0"),
    Say::Text(b"RECEIPT\nreceipt-id:c\n\n\0"),
    Say::Text(b"RECEIPT\nreceipt-id:d\n\n\0"),
    Say::Text(b"RECEIPT\nreceipt-id:e\n\n\0"),
    Say::Text(b"RECEIPT\nreceipt-id:f\n\n\0"),
    Say::Text(b"RECEIPT\nreceipt-id:g\n\n\0"),
    Say::Text(b"RECEIPT\nreceipt-id:h\n\n\0"),
    Say::Text(b"RECEIPT\nreceipt-id:i\n\n\0"),
    Say::Text(b"RECEIPT\nreceipt-id:j\n\n\0"),
    Say::Text(b"RECEIPT\nreceipt-id:k\n\n\0"),
    Say::Text(b"RECEIPT\nreceipt-id:l\n\n\0"),
    Say::Text(b"RECEIPT\nreceipt-id:m\n\n\0"),
    Say::Text(b"RECEIPT\nreceipt-id:n\n\n\0"),
    Say::Text(b"RECEIPT\nreceipt-id:o\n\n\0"),
    Say::Text(b"RECEIPT\nreceipt-id:p\n\n\0"),
    Say::Text(b"RECEIPT\nreceipt-id:q\n\n\0"),
    Say::Text(b"RECEIPT\nreceipt-id:r\n\n\0"),
    Say::Text(b"RECEIPT\nreceipt-id:s\n\n\0"),
    Say::Text(b"RECEIPT\nreceipt-id:t\n\n\0"),
];

pub const UPPER_RECEIPTS: &[Say<'static>] = &[
    CONNECTED,
    Say::Text(b"RECEIPT\nreceipt-id:A\n\n\0"),
    Say::Text(b"RECEIPT\nreceipt-id:B\n\n\0"),
    Say::Text(b"RECEIPT\nreceipt-id:C\n\n\0"),
    Say::Text(b"RECEIPT\nreceipt-id:D\n\n\0"),
    Say::Text(b"RECEIPT\nreceipt-id:E\n\n\0"),
    Say::Text(b"RECEIPT\nreceipt-id:F\n\n\0"),
    Say::Text(b"RECEIPT\nreceipt-id:G\n\n\0"),
    Say::Text(b"RECEIPT\nreceipt-id:H\n\n\0"),
    Say::Text(b"RECEIPT\nreceipt-id:I\n\n\0"),
    Say::Text(b"RECEIPT\nreceipt-id:J\n\n\0"),
    Say::Text(b"RECEIPT\nreceipt-id:K\n\n\0"),
    Say::Text(b"RECEIPT\nreceipt-id:L\n\n\0"),
    Say::Text(b"RECEIPT\nreceipt-id:M\n\n\0"),
    Say::Text(b"RECEIPT\nreceipt-id:N\n\n\0"),
    Say::Text(b"RECEIPT\nreceipt-id:O\n\n\0"),
    Say::Text(b"RECEIPT\nreceipt-id:P\n\n\0"),
    Say::Text(b"RECEIPT\nreceipt-id:Q\n\n\0"),
    Say::Text(b"RECEIPT\nreceipt-id:R\n\n\0"),
    Say::Text(b"RECEIPT\nreceipt-id:S\n\n\0"),
    Say::Text(b"RECEIPT\nreceipt-id:T\n\n\0"),
];

/// A subscriber that acknowledges a message twice, and what it hears: sessions and messages are numbered by their commands.
pub const SUBSCRIBER: &[Say<'static>] = &[
    CONNECT,
    SUBSCRIBE,
    Say::Text(SEND_X),
    SEND_Y,
    ACK,
    ACK_AGAIN,
];

pub const TWO_MESSAGES: &[Say<'static>] = &[CONNECTED, MESSAGE_X, MESSAGE_Y, UNKNOWN_ID];
