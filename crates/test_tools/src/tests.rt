mod command_lines;
mod latencies;
mod times;
