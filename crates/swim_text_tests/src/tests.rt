mod numbers;
mod parts;
mod short_lines;
mod streams;
