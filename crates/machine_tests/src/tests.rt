mod known;
mod memory;
mod names;
mod queues;
mod roles;
mod text;
