//! One provider, or two of which what one puts is handed to the other, without a network.
mod boxes;
mod delivery;
mod desk;
mod faults;
mod home;
mod journals;
mod letters;
mod logs;
mod reception;
mod world;
