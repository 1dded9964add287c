//! Several threads of one participant over a live ring.
//!
//! Layer: over the gate of `agent_gate`, the links of `ivy_serving` and the ring of `ring_run`; below the top call.
//! For the layer above: [`crowd`] opens the participant's agent, has each thread serve one link with a pass of its own, closes
//! the gate, and counts. Its clause is `HasCome` (`specs/Crowds.antt`): there are an opening agent that was created and entered
//! its view, one legal history, and the agent that it became; each thread's session ended with Done over exactly its calls, and
//! its turns are those of its pass in the history, which has no others; and the counts are of that history and that agent. No
//! clause ties what the ring gives at the end.
//!
//! The only error is: out of memory. The ends of a link don't fail (`ends`), and a stream of calls is whole calls within the
//! limit (`proofs/Calls.antt`), so a session ends with Done where memory lasts. Each pass comes back with its part, so the gate
//! closes. The key isn't spent, no save is to fail, and the view is of the agent's log alone (`proofs/Wanting.antt`), so the
//! agent is opened. Of one step no clause says it: that the closed agent has its own log in its floor.
//!
//! Definitions: `specs/Requests.antt` (the key and the calls, by the script's words), `specs/Sessions.antt` (a session, and all
//! of them), `specs/Crowds.antt` (a crowd). `specs/Jobs.antt` has the steps between.
//!
//! Within: `key` and `opening` make the agent, `request` the calls, `ends` the two ends of a link, `jobs` a job for each thread,
//! `job` serves one, `running` all at once, `counting` and `stored` look at what is left.
//!
//! Costs: the key's 1,024 leaves are grown once; a link's calls stand in memory, 160 bytes each. The key and the ring share
//! verdicts (`RememberedKey` of `ring_run`), so no node verifies a head that the agent sealed.
#![tactic(auto)]

mod counting;
mod crowding;
mod ends;
mod job;
mod jobs;
mod key;
mod opening;
mod request;
mod running;
mod stored;
mod tally;

pub use crowding::crowd;
pub use tally::Tally;
