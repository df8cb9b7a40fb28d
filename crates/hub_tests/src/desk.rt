//! Tests of WebSocket links, and of desks with many clients: on one thread, where each turn comes when a test gives it, and in threads. They
//! are rows of data, since each function that owns a link or a desk has a long proof.

mod acts;
mod budget_tests;
mod crowd_tests;
mod driver;
mod failing_tests;
mod feeds;
mod foreign_tests;
mod guests;
mod handshake_tests;
mod place_tests;
mod receiving_tests;
mod rooms;
mod says;
mod sending_tests;
mod texts;
mod wire;
