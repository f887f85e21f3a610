// One peer: settings, a record, and what one frame, primitive or clock step makes of it. It sees no octets; of other
// records it is told what it needs.
// Settings and record are two parameters throughout: each definition and theorem of specs/ has them so, and a struct of both would be taken apart in
// every clause.
#![tactic(auto)]

pub mod ask;
pub mod association;
pub mod authentication;
pub mod challenge;
pub mod codes;
pub mod exchange;
pub mod farewell;
pub mod filter;
pub mod fit;
pub mod hear;
pub mod idle;
pub mod moves;
pub mod query;
pub mod record;
pub mod refuse;
pub mod reply;
pub mod settings;
pub mod tick;
pub mod turn;
pub mod verdict;
