mod addresses;
mod datagrams;
mod ids;
mod pieces;
