//! Tests as rows (`rows`), with what they do (`judging`, `hitting`, `by_list`, `crawling`) and see (`seeing`); tries of commands
//! (`trying`) as rows (`asking`); and a drawn test.
mod advances;
mod asking;
mod bounds;
mod breaking;
mod by_list;
mod crawling;
mod crawls;
mod hitting;
mod judgements;
mod judging;
mod plain_table;
mod random_classes;
mod rows;
mod seeing;
mod table_compared;
mod tries;
mod trying;
mod walks;

/// What tests draw by.
const SEED: u64 = 1;
