//! The system's clock, and a TCP port of this machine as a door: the trusted edge towards time and the network.
//! Neither tells what it gives.
#![tactic(auto)]

mod descriptors;
mod system_ticks;
mod tcp_connection;
mod tcp_door;

pub use system_ticks::SystemTicks;
pub use tcp_connection::TcpConnection;
pub use tcp_door::TcpDoor;
