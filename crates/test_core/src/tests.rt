mod moves;
mod script;
mod stores;
