mod lists;
mod scene;
mod tally;
mod unix;
