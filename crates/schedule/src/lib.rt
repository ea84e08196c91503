//! Machines that go step by step, the run of one state by itself, and the rounds in which several run together: definitions in specs/,
//! their laws in proofs/. It holds no code. The engine's contracts name what stands here (docs/ARCHITECTURE.md).
#![tactic(auto)]
