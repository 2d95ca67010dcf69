// What C and Rust hosts link: the functions of morphelai under their exported names.
#![tactic(auto)]

mod client_exports;
mod codec_exports;
mod server_exports;
