// Pairs of seats, in one thread and in two.
mod covers;
mod joined;
mod rows;
mod threads;
