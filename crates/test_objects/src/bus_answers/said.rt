//! The expected answers of the objects of the bus bench: a line `> CALL` for each call, followed by its actions. A report has its verbosity
//! and text in a line of its own. Answers of one shape are tables of what differs.

pub(super) const BUS_MONITOR: &str = "> build
add bus imp
add ap port analysis
> run
> written bus [1,16,-5,0]
report INFO MON
  200: write 16 -5
write ap [1,16,-5,0]
> written bus [0,16,7,3]
report INFO MON
  200: read 16 7
write ap [0,16,7,3]
> written bus [2,0,0,0]
report INFO MON
  200: read 0 0
write ap [2,0,0,0]
> wake 1
> written bus [1,-9223372036854775808,9223372036854775807,0]
report INFO MON
  200: write -9223372036854775808 9223372036854775807
write ap [1,-9223372036854775808,9223372036854775807,0]
";

pub(super) const BUS_SCOREBOARD: &str = "> build
add seen imp
> report
report INFO SB
  200: 0 seen 0 bad
> written seen [0,4,0,0]
> written seen [1,4,9,0]
> written seen [0,4,9,1]
> report
report INFO SB
  200: 3 seen 0 bad
> written seen [0,4,8,0]
report ERROR SB
  0: read 4 gave 8 not 9
> written seen [2,5,-1,0]
report ERROR SB
  0: read 5 gave -1 not 0
> written seen [1,-4,-9,0]
> written seen [0,-4,9,0]
report ERROR SB
  0: read -4 gave 9 not -9
> run
> report
report INFO SB
  200: 7 seen 3 bad
> written seen [1,-9223372036854775808,9223372036854775807,0]
> written seen [0,-9223372036854775808,-9223372036854775808,0]
report ERROR SB
  0: read -9223372036854775808 gave -9223372036854775808 not 9223372036854775807
";

pub(super) const BUS_TEST: &str = "> build
create bus_env env
> connect
> run
raise 1
start seq_smoke seq (env.agent.sqr) none
> finished seq
drop 1
> extract
";

pub(super) const BUS_ENV: &str = "> build
create bus_agent agent
create bus_mem mem
create bus_scoreboard sb
add reqf fifo 1
add rspf fifo 1
> connect
connect (agent.drv.req) (reqf)
connect (agent.drv.rsp) (rspf)
connect (mem.req) (reqf)
connect (mem.rsp) (rspf)
connect (agent.mon.ap) (sb.seen)
> run
";

pub(super) const BUS_AGENT: &str = "> build
get arb
> connect
connect (drv.sqp) (sqr)
connect (drv.ap) (mon.bus)
> run
";

/// Values of the field `arb`, and the arbitration mode of the sequencer that the agent then adds.
pub(super) const MODES: [(&str, &str); 8] = [
    ("0", "FIFO"),
    ("1", "WEIGHTED"),
    ("2", "RANDOM"),
    ("3", "STRICT_FIFO"),
    ("4", "STRICT_RANDOM"),
    ("5", "FIFO"),
    ("-1", "FIFO"),
    ("none", "FIFO"),
];

pub(super) const BUS_DRIVER: &str = "> build
add sqp port seq
add req port put
add rsp port get
add ap port analysis
> run
ask sqp next
> next_item sqp none
> next_item sqp [0,2,0,0]
put req [0,2,0,0]
> stored req
take rsp
> taken rsp [1,2,3,0]
write ap [1,2,3,0]
item_done sqp [1,2,3,0]
ask sqp next
> wake 1
> body
";

pub(super) const SLOW_DRIVER: &str = "> build
add sqp port seq
add req port put
add rsp port get
add ap port analysis
> run
ask sqp next
> wake 1
put req [0,0,0,0]
> next_item sqp [0,2,-4,0]
wait 3 1
> next_item sqp none
> wake 7
put req [0,2,-4,0]
> stored req
take rsp
> taken rsp [1,2,3,0]
write ap [1,2,3,0]
item_done sqp [1,2,3,0]
ask sqp next
> wake 1
put req [0,2,-4,0]
> report
";

pub(super) const SEQ_SMOKE: &str = "> pre_start
end_step
> body
request none
> grant
send [1,0,10,0]
> item_done none
request none
> grant
send [0,0,0,0]
> item_done none
end_step
> post_start
end_step
> grant
> held
> wake 1
";

pub(super) const SEQ_BURST: &str = "> pre_start
end_step
> body
lock
> held
request none
> grant
send [1,0,20,0]
> item_done [1,2,3,0]
request none
> grant
send [1,1,21,0]
> item_done [1,2,3,0]
request none
> grant
send [0,0,0,0]
> item_done [1,2,3,0]
request none
> grant
send [0,1,0,0]
> item_done [1,2,3,0]
unlock
end_step
> post_start
end_step
> grant
> run
";

pub(super) const SEQ_PAIR: &str = "> pre_start
end_step
> body
start seq_smoke a () none
start seq_burst b () 200
> finished b
> grant
> finished a
end_step
> post_start
end_step
> finished a
";

pub(super) const IDLE: &str = "> build
> run
> final
";

pub(super) const LOUD: &str = "> run
> build
report ERROR E
  0: one
report ERROR E
  0: two
report ERROR E
  0: three
";

pub(super) const PULSE: &str = "> run
set_drain 5
raise 1
wait 10 1
> wake 1
drop 1
wait 2 2
> wake 2
raise 1
wait 8 3
> wake 3
drop 1
> wake 4
> build
";

pub(super) const SLEEPER: &str = "> build
get at
> config at none
> run
raise 1
wait 0 1
> config at 7
> run
raise 1
wait 7 1
> config at -1
> run
raise 1
> wake 1
drop 1
";

pub(super) const SPINNER: &str = "> build
> run
wait 0 1
> wake 1
wait 0 1
";

pub(super) const WAITING_MEMORY: &str = "> build
add req port get
add rsp port put
get waits
> taken req [0,1,2,3]
wait 0 1
> config waits 7
> taken req [0,1,2,3]
wait 7 1
> config waits none
> taken req [0,1,2,3]
wait 2 1
> config waits 0
> taken req [0,1,2,3]
wait 0 1
> config waits -1
> taken req [0,1,2,3]
wait 2 1
> report
";

pub(super) const NEW_MEMORY: &str = "> wake 1
put rsp [0,0,0,0]
> run
take req
";

/// The items that a new memory takes one after the other, and what it puts for each: `bus_mem`, and then `bus_mem_bad`.
pub(super) const ITEMS: [(&str, &str, &str); 7] = [
    ("[0,4,5,6]", "[0,4,0,6]", "[0,4,1,6]"),
    ("[1,4,9,6]", "[1,4,9,6]", "[1,4,9,6]"),
    ("[0,4,5,6]", "[0,4,9,6]", "[0,4,8,6]"),
    ("[0,5,5,0]", "[0,5,0,0]", "[0,5,1,0]"),
    ("[1,4,-1,0]", "[1,4,-1,0]", "[1,4,-1,0]"),
    ("[3,4,0,0]", "[3,4,-1,0]", "[3,4,-2,0]"),
    ("[0,-4,0,0]", "[0,-4,0,0]", "[0,-4,1,0]"),
];
