//! The page for people.

/// What the page may do: its own script runs, its own style is shown, and it asks nobody but its server. The hashes are
/// those of the texts between `<script>` and `</script>`, and between `<style>` and `</style>`.
pub(crate) const FRONT_POLICY: &str = "default-src 'none'; \
    script-src 'sha256-K+ilEkZoG9njK54M4ewuapJM+5KiWsUJ/I7Oizm0qrE='; \
    style-src 'sha256-QCc8UNp2CvpVFNgwuwJ2ERcAuAKwxgoB25xY3Dfl180='; \
    connect-src 'self'; img-src 'self' data:; base-uri 'none'; form-action 'none'; frame-ancestors 'none'";

/// The page, which needs nothing but itself, `/members.json`, `/verdicts.json`, `/metrics` and `/events`.
pub(crate) const FRONT_PAGE: &str = r##"<!doctype html>
<html lang="en">
<head>
<meta charset="utf-8">
<meta name="viewport" content="width=device-width,initial-scale=1">
<meta name="color-scheme" content="light dark">
<title>swimd</title>
<link rel="icon" href="data:,">
<style>
:root { --paper: #fff; --band: #f6f8fa; --line: #d8dee4; --text: #1f2328; --quiet: #59636e; --up: #1a7f37;
  --failed: #cf222e; --alarm: #fff1f0; --link: #0969da }
@media (prefers-color-scheme: dark) {
  :root { --paper: #0d1117; --band: #151b23; --line: #2a313c; --text: #e6edf3; --quiet: #9198a1; --up: #3fb950;
    --failed: #ff7b72; --alarm: #2d1214; --link: #58a6ff }
}
* { box-sizing: border-box }
body { margin: 0; background: var(--paper); color: var(--text);
  font: 15px/1.5 system-ui, -apple-system, "Segoe UI", Helvetica, Arial, sans-serif }
header, main, footer { max-width: 60rem; margin: 0 auto; padding: 0 1.25rem }
header { padding-top: 1.75rem; display: flex; flex-wrap: wrap; gap: .5rem 1rem; justify-content: space-between;
  align-items: flex-start }
h1 { font-size: 1.35rem; line-height: 1.3; margin: 0 }
code, .number { font-family: ui-monospace, SFMono-Regular, Menlo, Consolas, "DejaVu Sans Mono", monospace;
  font-size: .92em; font-variant-numeric: tabular-nums }
.quiet { color: var(--quiet) }
p { margin: .25rem 0 }
a { color: var(--link); text-underline-offset: .15em }
a:focus-visible, button:focus-visible { outline: 3px solid var(--link); outline-offset: 2px; border-radius: 3px }
#sum { font-size: 1.05rem; margin-top: 1rem }
#sum b { font-weight: 650 }
.f { color: var(--failed) }
.u { color: var(--up) }
#alarm { border-left: 4px solid var(--failed); background: var(--alarm); padding: .6rem .9rem; margin: 1rem 0 }
[hidden] { display: none !important }
table { border-collapse: collapse; width: 100%; table-layout: fixed }
th:first-child { width: 20% }
#figures th { width: 50%; font-weight: 500 }
caption { text-align: left; font-weight: 600; padding: 1.75rem 0 .5rem }
th, td { text-align: left; padding: .45rem .75rem .45rem 0; border-bottom: 1px solid var(--line);
  vertical-align: baseline }
th:first-child { padding-left: .75rem }
thead th { font-weight: 500; color: var(--quiet); font-size: .87rem }
tbody th { font-weight: 600 }
tr.is-failed th:first-child { box-shadow: inset 3px 0 var(--failed) }
td svg { width: 11px; height: 11px; margin-right: .45rem; fill: none; stroke-width: 2.2; vertical-align: -.05em }
.u svg { stroke: var(--up) }
.f svg { stroke: var(--failed) }
.age { display: inline-block }
.none td { color: var(--quiet); padding-left: .75rem }
meter { width: 10rem; max-width: 50%; margin-right: .5rem; vertical-align: middle }
footer { color: var(--quiet); font-size: .87rem; padding-top: 1.5rem; padding-bottom: 2.5rem }
footer a { margin-right: 1rem }
button { font: inherit; font-size: .87rem; color: inherit; background: var(--band); border: 1px solid var(--line);
  border-radius: 6px; padding: .2rem .7rem; cursor: pointer; min-height: 2rem }
@media (max-width: 34rem) {
  thead { position: absolute; width: 1px; height: 1px; overflow: hidden; clip-path: inset(50%) }
  table, tbody, caption { display: block }
  tbody tr { display: flex; flex-wrap: wrap; gap: 0 .75rem; padding: .55rem 0 .55rem .75rem;
    border-bottom: 1px solid var(--line) }
  th:first-child, #figures th { width: auto }
  tbody th:first-child, tbody td, .none td:first-child, tr.is-failed th:first-child { border: 0; padding: 0;
    box-shadow: none }
  tbody td.state { flex-basis: 100% }
  tr.is-failed { box-shadow: inset 3px 0 var(--failed) }
}
@media (forced-colors: active) { td svg { stroke: CanvasText } }
</style>
</head>
<body>
<header>
<div>
<h1 id="me">swimd</h1>
<p class="quiet" id="at"></p>
</div>
<button type="button" id="hold" hidden>Pause</button>
</header>
<main>
<noscript><p>This page asks for <a href="/members.json">/members.json</a> every five seconds, by a script. Without it,
read that, or <a href="/metrics">/metrics</a>.</p></noscript>
<div id="alarm" role="alert" hidden></div>
<p id="sum" aria-live="polite">Asking the daemon …</p>
<div id="told" hidden>
<table role="table" aria-describedby="at">
<caption>Members</caption>
<thead role="rowgroup"><tr role="row"><th role="columnheader" scope="col">Id</th>
<th role="columnheader" scope="col">Address</th><th role="columnheader" scope="col">State</th></tr></thead>
<tbody role="rowgroup" id="members"></tbody>
</table>
<table role="table" id="changes" hidden>
<caption>Last changes</caption>
<thead role="rowgroup"><tr role="row"><th role="columnheader" scope="col">Id</th>
<th role="columnheader" scope="col">Change</th><th role="columnheader" scope="col">When</th></tr></thead>
<tbody role="rowgroup" id="events"></tbody>
</table>
<table role="table" id="figures" hidden>
<caption>This daemon</caption>
<tbody role="rowgroup" id="counts"></tbody>
</table>
</div>
</main>
<footer>
<p><a href="/members.json">members.json</a><a href="/verdicts.json">verdicts.json</a>
<a href="/metrics">metrics</a><a href="/healthz">healthz</a></p>
<p>A member is up until this daemon judges it failed. Other daemons may see their group otherwise.</p>
</footer>
<script>
"use strict";
const EVERY = 5000, LIMIT = 3000, CHANGES = 20, FIRST = 2000, LONGEST = 60000;
const id = name => document.getElementById(name);
const shapes = { up: "M1 6 4 9 10 1.5", failed: "M1 1 10 10M1 10 10 1" };
const roles = { tr: "row", th: "rowheader", td: "cell" };
const changes = [], ages = [];
let last = "", asked = 0, held = false, soon = 0, explained, periods;
let stream, later = 0, wait = FIRST, asking = false, again = false;

function put(parent, tag, text, cls) {
  const e = document.createElement(tag);
  if (text !== undefined) e.textContent = text;
  if (cls) e.className = cls;
  if (roles[tag]) e.setAttribute("role", roles[tag]);
  parent.append(e);
  return e;
}
function shape(state) {
  const ns = "http://www.w3.org/2000/svg";
  const s = document.createElementNS(ns, "svg"), p = document.createElementNS(ns, "path");
  s.setAttribute("viewBox", "0 0 11 11");
  s.setAttribute("aria-hidden", "true");
  p.setAttribute("d", shapes[state]);
  s.append(p);
  return s;
}
const clock = time => new Date(time).toLocaleString(undefined, { dateStyle: "medium", timeStyle: "medium" });
const many = (n, one) => n + " " + one + (n === 1 ? "" : "s");
// The number of a period stays a text, since it has up to 64 bits, and a Number holds 53.
const read = text => JSON.parse(text.replace(/"period":(\d+)/g, '"period":"$1"'));
function rowsOf(body, list, none, fill) {
  const old = document.activeElement, focused = old && body.contains(old) ? old.href : undefined;
  body.textContent = "";
  for (const x of list) fill(put(body, "tr"), x);
  if (!list.length) put(put(body, "tr", undefined, "none"), "td", none).colSpan = 3;
  if (focused) [...body.querySelectorAll("a")].find(a => a.href === focused)?.focus();
}
function putState(tr, state, text) {
  const td = put(tr, "td", undefined, "state " + (state === "failed" ? "f" : "u"));
  td.append(shape(state));
  return put(td, "span", text);
}
// Links to its page, if the server explains verdicts.
function putFailed(tr, verdict) {
  const text = "failed in period " + verdict.period;
  if (!explained) return putState(tr, "failed", text);
  const told = putState(tr, "failed", ""), link = put(told, "a", text);
  link.href = "/verdicts/" + verdict.id + "/" + verdict.period;
  link.setAttribute("aria-label", "Member " + verdict.id + " " + text + ": the evidence");
  return told;
}
// showAge fills it.
function putAge(parent, member) {
  parent.append(" ");
  ages.push({ age: put(parent, "span", "", "age quiet"), member });
}
// Since the end of a period, where the one that runs counts as over.
function secondsSince(period) {
  const ms = (periods.running - period) * periods.ms, most = 2n ** 64n - 1n;
  return (ms < 0n ? 0n : ms > most ? most : ms) / 1000n;
}
function spanOf(seconds) {
  if (seconds < 120n) return seconds + " s";
  if (seconds < 7200n) return seconds / 60n + " min";
  if (seconds < 172800n) return seconds / 3600n + " h";
  return seconds / 86400n + " days";
}
// A failed member's verdict is told by the table, and when another was last heard by the counts.
function showAge({ age, member }) {
  const failed = member.state === "failed", period = failed ? member.period : periods?.heard(member.id);
  if (!periods || !/^\d+$/.test(period)) {
    age.textContent = age.title = "";
    return;
  }
  const seconds = secondsSince(BigInt(period)), text = (failed ? "about " : "heard about ") + spanOf(seconds) + " ago";
  const time = Date.now() - 1000 * Number(seconds);
  if (age.textContent !== text) age.textContent = text;
  age.title = time > 0 ? clock(time) : "";
}
function showMembers(members) {
  const failed = members.filter(m => m.state === "failed"), up = members.length - failed.length;
  id("told").hidden = false;
  document.title = (failed.length ? "(" + failed.length + " failed) " : "") + id("me").textContent;
  const sum = id("sum");
  sum.textContent = "";
  if (failed.length) {
    put(sum, "b", failed.length + " failed", "f");
    sum.append(", " + up + " up");
  } else {
    put(sum, "b", up ? "All " + many(up, "member") + " up" : "No other member is known", "u");
  }
  const order = failed.concat(members.filter(m => m.state === "up"));
  ages.length = 0;
  rowsOf(id("members"), order, "No other member is known.", (tr, m) => {
    tr.className = m.state === "failed" ? "is-failed" : "";
    put(tr, "th", m.id, "number").scope = "row";
    put(put(tr, "td"), "code", m.peer);
    putAge(m.state === "failed" ? putFailed(tr, m) : putState(tr, "up", "up"), m);
  });
}
const words = { up: e => "up at " + e.peer, gone: () => "removed",
  life: e => "life " + e.life + " began", lost: () => "some changes weren’t heard",
  again: () => "the daemon was found again", ended: () => "the daemon ended" };
function showChanges() {
  id("changes").hidden = !changes.length;
  rowsOf(id("events"), changes, "", (tr, e) => {
    put(tr, "th", e.id === undefined ? "" : e.id, "number").scope = "row";
    const text = words[e.event] ? words[e.event](e) : e.event;
    if (e.event === "failed") putFailed(tr, e);
    else if (e.event === "up") putState(tr, e.event, text);
    else put(tr, "td", text, "state");
    put(tr, "td", e.time ? clock(e.time) : "");
  });
}
// A stream that ended is asked for again by the browser. One that it has given up, as after an answer of another server
// in front of this one, is opened anew, each time after a longer while. It then tells all changes that are kept.
function follow() {
  const it = stream = new EventSource("/events");
  let isNew = true;
  it.onopen = () => {
    wait = FIRST;
    if (isNew) changes.length = 0;
    isNew = false;
    showChanges();
  };
  it.onmessage = m => {
    changes.unshift(read(m.data));
    changes.length = Math.min(changes.length, CHANGES);
    showChanges();
    clearTimeout(soon);
    soon = setTimeout(ask, 100);
  };
  it.onerror = () => {
    if (it !== stream || held || it.readyState !== EventSource.CLOSED) return;
    clearTimeout(later);
    later = setTimeout(follow, wait);
    wait = Math.min(2 * wait, LONGEST);
  };
}
function samplesOf(text) {
  const found = new Map();
  for (const line of text.split("\n")) {
    const end = line.lastIndexOf(" ");
    if (end < 1 || line[0] === "#") continue;
    // All are this member's.
    const key = line.slice(0, end).replace(/\{member="\d+",?/, "{").replace("{}", "");
    found.set(key, line.slice(end + 1));
  }
  return found;
}
function periodsOf(found) {
  const running = found.get("swimd_period_number"), seconds = found.get("swimd_period_seconds");
  if (!/^\d+$/.test(running) || !/^\d+\.\d{3}$/.test(seconds)) return undefined;
  const heard = id => found.get('swimd_member_heard_period{id="' + id + '"}');
  return { running: BigInt(running), ms: BigInt(seconds.replace(".", "")), heard };
}
const figures = [["swimd_period_number", "Period"], ["swimd_period_seconds", "Seconds of a period"],
  ["swimd_verdicts_total", "Verdicts"], ["swimd_journal_entries", "Entries of this life"],
  ["swimd_journal_entries_behind", "Entries that aren’t counted yet"], ["swimd_unsent_total", "Datagrams not sent"],
  ["swimd_wire_total", "Datagrams that are no message"], ["swimd_forged_total", "Datagrams without a tag of the group"],
  ["swimd_fenced_total", "Datagrams above the rate"], ["swimd_lost_watchers_total", "Watchers that didn’t keep up"]];
function showFigures(text) {
  const found = samplesOf(text), me = found.get("swimd_member_id"), body = id("counts");
  periods = periodsOf(found);
  if (me) id("me").textContent = "Member " + me + "’s view of its group";
  id("figures").hidden = false;
  body.textContent = "";
  const figure = name => {
    const tr = put(body, "tr");
    put(tr, "th", name).scope = "row";
    return put(tr, "td", undefined, "number");
  };
  const shown = value => value.includes(".") ? Number(value) : value;
  for (const [key, name] of figures) if (found.has(key)) figure(name).textContent = shown(found.get(key));
  for (const [key, n] of found) {
    const reason = /^swimd_dropped_total\{reason="(.*)"\}$/.exec(key);
    if (reason && n !== "0") figure("Messages dropped, " + reason[1].replaceAll("_", " ")).textContent = n;
  }
  showWaits(found, figure);
}
function showWaits(found, figure) {
  const all = Number(found.get("swimd_ack_wait_ticks_count"));
  let below = 0;
  for (const [key, value] of found) {
    const bound = /^swimd_ack_wait_ticks_bucket\{le="(.*)"\}$/.exec(key), n = Number(value);
    if (!bound || !all || n === below) continue;
    const td = figure(bound[1] === "+Inf" ? "Acks after that" : "Acks within " + many(Number(bound[1]), "tick"));
    const bar = put(td, "meter");
    bar.max = all;
    bar.value = n - below;
    bar.setAttribute("aria-hidden", "true");
    td.append(n - below);
    below = n;
  }
}
function tell(text) {
  const alarm = id("alarm");
  if (alarm.hidden !== !text || alarm.textContent !== text) {
    alarm.textContent = text;
    alarm.hidden = !text;
  }
}
async function get(path) {
  const r = await fetch(path, { signal: AbortSignal.timeout(LIMIT), cache: "no-store" });
  if (!r.ok) throw new Error("The daemon");
  return r.text();
}
async function learn() {
  if (explained !== undefined) return;
  explained = JSON.parse(await get("/verdicts.json")).explained;
  last = "";
}
function showTime() {
  const at = asked ? "As the daemon answered at " + new Date(asked).toLocaleTimeString() : "";
  id("at").textContent = held ? at + (at ? ", paused" : "Paused") : at;
}
async function look() {
  try {
    await learn();
    const counts = await get("/metrics"), text = await get("/members.json");
    if (held) return;
    if (!last) showChanges();
    showFigures(counts);
    if (text !== last) showMembers(read(text).members);
    ages.forEach(showAge);
    last = text;
    asked = Date.now();
    tell("");
    showTime();
  } catch (e) {
    if (held) return;
    if (e.message !== "The daemon") explained = undefined;
    periods = undefined;
    ages.forEach(showAge);
    const who = e.message === "The daemon" ? e.message : "This page’s server";
    tell(asked ? who + " hasn’t answered since " + clock(asked) + ". What is below is as it was then."
      : who + " doesn’t answer.");
    if (!asked) id("sum").textContent = "";
  }
}
// Once at a time: what is to be asked meanwhile is asked behind that.
async function ask() {
  again = true;
  if (asking) return;
  asking = true;
  while (again && !held && !document.hidden) {
    again = false;
    await look();
  }
  asking = false;
}
// Nothing on the page moves while it is held.
id("hold").hidden = false;
id("hold").addEventListener("click", () => {
  held = !held;
  id("hold").textContent = held ? "Continue" : "Pause";
  clearTimeout(later);
  clearTimeout(soon);
  showTime();
  if (held) return stream.close();
  wait = FIRST;
  follow();
  ask();
});
document.addEventListener("visibilitychange", ask);
setInterval(ask, EVERY);
follow();
ask();
</script>
</body>
</html>
"##;
