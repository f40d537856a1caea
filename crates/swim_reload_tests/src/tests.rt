mod answers;
mod documents;
mod faults;
mod keys;
